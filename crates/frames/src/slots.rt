// The slot tables: what a master does in a slot's first cycle, and the levels that it shows in that slot.
#![tactic(auto, unfolding(crate::specs::Slots::motorola_event, crate::specs::Slots::ti_event, crate::specs::Slots::microwire_event, crate::specs::Slots::event_of, crate::specs::Slots::last_slot, crate::specs::Slots::width_of, crate::specs::Slots::motorola_levels, crate::specs::Slots::ti_levels, crate::specs::Slots::microwire_levels, crate::specs::Slots::levels_of))]

ghost use Rattle.std.specs.Prelude.{◌≡◌};
ghost use Rattle.frames.specs.Slots.{motorola_event, ti_event, microwire_event, event_of, last_slot, width_of, capture_width, data_on, motorola_levels, ti_levels, microwire_levels, levels_of};

use registers::settings::{Format, Settings};
use registers::time::Slots;

#[derive(Clone, Copy)]
pub enum Event {
    // the word is taken
    Begin,
    // the word is taken, its first bit goes on TXD
    BeginDrive,
    // bit i goes on TXD
    Drive(u16),
    // the first bit of a word that was taken before goes on TXD
    First,
    // a bit is captured
    Capture,
    // a waiting word is taken, and this is its slot of the given number
    Chain(Slots),
    // bit i goes on TXD; a waiting word is taken, and this is its slot 0
    JoinDrive(u16),
    // the last capture of the word before, if this one is joined to it
    JoinCapture,
    // TXD goes LOW
    Quiet,
    // the frame is over
    Release,
    Pause,
}

// Clock before SPO, FSS and nSSPOE.
#[derive(Clone, Copy)]
pub struct Levels {
    pub clk: bool,
    pub fss: bool,
    pub released: bool,
}

fn motorola_event(phase: bool, b: u8, n: u16) -> Event
    ensures { result ≡ motorola_event phase b n }
{
    let end = 2 * b as u16;
    match n {
        0 => Event::Begin,
        _ if n <= end && n % 2 == 1 => Event::Drive(n / 2),
        _ if n <= end => Event::Capture,
        _ if n == end + 1 && phase => Event::Chain(Slots(1)),
        _ if n == end + 2 => Event::Release,
        _ => Event::Pause,
    }
}

fn ti_event(b: u8, n: u16) -> Event
    ensures { result ≡ ti_event b n }
{
    let b = b as u16;
    match n {
        0 => Event::Begin,
        1 => Event::JoinCapture,
        2 => Event::First,
        _ if n == 2 * b => Event::JoinDrive(b.saturating_sub(1)),
        _ if n % 2 == 0 => Event::Drive((n / 2).saturating_sub(1)),
        _ => Event::Capture,
    }
}

fn microwire_event(b: u8, n: u16) -> Event
    ensures { result ≡ microwire_event b n }
{
    let end = 2 * b as u16;
    match n {
        0 => Event::BeginDrive,
        _ if n < 16 && n % 2 == 0 => Event::Drive(n / 2),
        _ if n < 16 => Event::Pause,
        16 => Event::Quiet,
        _ if 19 <= n && n < 18 + end && n % 2 == 1 => Event::Capture,
        _ if n == 18 + end => Event::Chain(Slots(0)),
        _ if n == 19 + end => Event::Release,
        _ => Event::Pause,
    }
}

// What happens in the first cycle of slot n.
pub fn event_of(s: Settings, slot: Slots) -> Event
    ensures { result ≡ event_of s slot }
{
    match s.format {
        Format::Motorola => motorola_event(s.phase, s.bits, slot.0),
        Format::Ti => ti_event(s.bits, slot.0),
        Format::Microwire => microwire_event(s.bits, slot.0),
        Format::Reserved => Event::Pause,
    }
}

// The last slot of a word, idle slots included.
pub fn last_slot(s: Settings) -> Slots
    ensures { result ≡ last_slot s }
{
    let end = 2 * s.bits as u16;
    match s.format {
        Format::Motorola => Slots(end + 3),
        Format::Ti => Slots(end + 1),
        Format::Microwire => Slots(end + 20),
        Format::Reserved => Slots(0),
    }
}

// How many bits of a word a master sends.
pub fn width_of(s: Settings) -> u16
    ensures { result ≡ width_of s }
{
    match s.format {
        Format::Motorola | Format::Ti | Format::Reserved => s.bits as u16,
        Format::Microwire => 8,
    }
}

// How many bits a received word has.
pub fn capture_width(s: Settings) -> u8
    ensures { result ≡ capture_width s }
{
    match s.format {
        Format::Microwire if s.slave => 8,
        _ => s.bits,
    }
}

fn motorola_levels(phase: bool, b: u8, n: u16) -> Levels
    ensures { result ≡ motorola_levels phase b n }
{
    let odd = n % 2 == 1;
    let even = (n % 2 == 0) & (0 < n);
    let active = if phase { odd } else { even };
    Levels {
        clk: active & (n <= 2 * b as u16),
        fss: false,
        released: false,
    }
}

fn ti_levels(joined: bool, n: u16) -> Levels
    ensures { result ≡ ti_levels joined n }
{
    Levels {
        clk: n % 2 == 0,
        fss: n < 2,
        released: (n < 2) & !joined,
    }
}

fn microwire_levels(n: u16) -> Levels
    ensures { result ≡ microwire_levels n }
{
    Levels {
        clk: n % 2 == 1,
        fss: false,
        released: 16 <= n,
    }
}

// The levels of slot n in a frame.
pub fn levels_of(s: Settings, joined: bool, slot: Slots) -> Levels
    ensures { result ≡ levels_of s joined slot }
{
    match s.format {
        Format::Motorola => motorola_levels(s.phase, s.bits, slot.0),
        Format::Ti => ti_levels(joined, slot.0),
        Format::Microwire => microwire_levels(slot.0),
        Format::Reserved => Levels {
            clk: false,
            fss: true,
            released: true,
        },
    }
}

// Whether TXD shows data in a slot with these levels; otherwise it is LOW.
pub fn data_on(f: Format, v: Levels, n: Slots) -> bool
    ensures { result ≡ data_on f v n }
{
    match f {
        Format::Motorola => 0 < n.0,
        Format::Ti | Format::Microwire => !v.released,
        Format::Reserved => false,
    }
}
