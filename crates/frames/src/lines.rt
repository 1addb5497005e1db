// The lines that a device drives, and the bytes of lines and pins. Settings and engine stay two parameters, as in `master`.
#![tactic(auto, unfolding(crate::specs::Lines::pins_of, crate::specs::Lines::pin_byte, crate::specs::Lines::byte_of, crate::specs::Lines::lines_from, crate::specs::Lines::frame_lines, crate::specs::Lines::master_txd, crate::specs::Lines::master_lines, crate::specs::Lines::slave_lines, crate::specs::Lines::lines_of))]

ghost use Rattle.std.specs.Prelude.{◌≡◌};
ghost use Rattle.frames.specs.Slots.{levels_of};
ghost use Rattle.frames.specs.Lines.{pins_of, pin_byte, byte_of, lines_from, idle_on, clock_on, frame_lines, joined_to, master_txd, master_lines, shows_on, slave_lines, lines_of};

use crate::engine::Engine;
use crate::slots::{Levels, data_on, levels_of};
use registers::bits::bit_at;
use registers::settings::{Format, Settings};

// The input levels of a cycle.
#[derive(Clone, Copy)]
pub struct Pins {
    pub clk: bool,
    pub fss: bool,
    pub rxd: bool,
}

// The output levels of a cycle; `released` is nSSPOE HIGH.
#[derive(Clone, Copy)]
pub struct Lines {
    pub clk: bool,
    pub fss: bool,
    pub txd: bool,
    pub released: bool,
}

// An input byte: CLK 1, FSS 2, RXD 4.
impl From<u8> for Pins {
    ghost from_gives = { λ byte pins. pins ≡ pins_of byte };

    fn from(byte: u8) -> Pins {
        let levels = byte as u32;
        Pins {
            clk: bit_at(levels, 0),
            fss: bit_at(levels, 1),
            rxd: bit_at(levels, 2),
        }
    }
}

// The byte of input levels.
impl From<Pins> for u8 {
    ghost from_gives = { λ pins byte. byte ≡ pin_byte pins };

    fn from(pins: Pins) -> u8 {
        pins.clk as u8 + 2 * pins.fss as u8 + 4 * pins.rxd as u8
    }
}

// An output byte: CLK 1, FSS 2, TXD 4, nSSPOE 8.
impl From<Lines> for u8 {
    ghost from_gives = { λ lines byte. byte ≡ byte_of lines };

    fn from(lines: Lines) -> u8 {
        lines.clk as u8 + 2 * lines.fss as u8 + 4 * lines.txd as u8 + 8 * lines.released as u8
    }
}

// The output levels in a byte.
impl From<u8> for Lines {
    ghost from_gives = { λ byte lines. lines ≡ lines_from byte };

    fn from(byte: u8) -> Lines {
        let levels = byte as u32;
        Lines {
            clk: bit_at(levels, 0),
            fss: bit_at(levels, 1),
            txd: bit_at(levels, 2),
            released: bit_at(levels, 3),
        }
    }
}

// Idle lines of a master.
pub fn idle_on(f: Format, polarity: bool) -> Lines
    ensures { result ≡ idle_on f polarity }
{
    let (clk, fss) = match f {
        Format::Motorola => (polarity, true),
        Format::Ti => (false, false),
        Format::Microwire | Format::Reserved => (false, true),
    };
    Lines {
        clk,
        fss,
        txd: false,
        released: true,
    }
}

// CLK as driven: in Motorola SPO inverts it.
pub fn clock_on(f: Format, polarity: bool, active: bool) -> bool
    ensures { result ≡ clock_on f polarity active }
{
    match f {
        Format::Motorola => active != polarity,
        Format::Ti | Format::Microwire | Format::Reserved => active,
    }
}

fn frame_lines(s: Settings, v: Levels, txd: bool) -> Lines
    ensures { result ≡ frame_lines s v txd }
{
    Lines {
        clk: clock_on(s.format, s.polarity, v.clk),
        fss: v.fss,
        txd,
        released: v.released,
    }
}

// The levels of a master in a frame.
fn master_levels(s: Settings, e: Engine) -> Levels
    ensures { result ≡ levels_of s (joined_to e) e.slot }
{
    levels_of(s, e.shift.captured != 0, e.slot)
}

// TXD of a master in a frame.
pub fn master_txd(s: Settings, e: Engine) -> bool
    ensures { result ≡ master_txd s e }
{
    data_on(s.format, master_levels(s, e), e.slot) & e.shift.level
}

fn master_lines(s: Settings, e: Engine) -> Lines
    ensures { result ≡ master_lines s e }
{
    if e.frame {
        let v = master_levels(s, e);
        let shown = data_on(s.format, v, e.slot);
        frame_lines(s, v, shown & e.shift.level)
    } else {
        idle_on(s.format, s.polarity)
    }
}

fn shows_on(f: Format, e: Engine) -> bool
    ensures { result ≡ shows_on f e }
{
    match f {
        Format::Motorola => e.selected,
        Format::Ti => e.frame,
        Format::Microwire => e.selected & (18 <= e.slot.0),
        Format::Reserved => false,
    }
}

fn slave_lines(s: Settings, e: Engine) -> Lines
    ensures { result ≡ slave_lines s e }
{
    let shows = shows_on(s.format, e);
    Lines {
        clk: false,
        fss: true,
        txd: shows & e.shift.level,
        released: !(shows & !s.sod),
    }
}

// The lines of an engine.
pub fn lines_of(s: Settings, e: Engine) -> Lines
    ensures { result ≡ lines_of s e }
{
    if s.slave {
        slave_lines(s, e)
    } else {
        master_lines(s, e)
    }
}
