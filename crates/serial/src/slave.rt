// What a slave does in a cycle. It sees each pin as it was two cycles ago; an edge is a difference from the cycle before that.
// Settings and engine stay two parameters, as in `frames::master`; `next` comes from the registers and is no part of what is seen.
// Functions and no methods, since the engine is of frames.
#![tactic(auto, unfolding(crate::specs::Slave::motorola_select, crate::specs::Slave::capture_edge, crate::specs::Slave::drive_edge, crate::specs::Slave::motorola_clock, crate::specs::Slave::motorola_edges, crate::specs::Slave::motorola_slave, crate::specs::Slave::ti_falls, crate::specs::Slave::ti_rises, crate::specs::Slave::ti_slave, crate::specs::Slave::data_rises, crate::specs::Slave::microwire_rises, crate::specs::Slave::microwire_falls, crate::specs::Slave::microwire_edges, crate::specs::Slave::microwire_slave, crate::specs::Slave::slave_step, crate::specs::Slave::slave_end))]

ghost use Rattle.std.specs.Prelude.{◌≡◌};
ghost use Rattle.serial.specs.Slave.{slave_take, slave_drive, selected_of, motorola_select, clock_leaves, to_active, to_idle, capture_edge, drive_edge, motorola_clock, after_taking, motorola_edges, motorola_slave, with_mark, ti_falls, ti_rises, clock_falls, clock_rises, ti_slave, ready, microwire_select, data_over, data_rises, microwire_rises, microwire_falls, microwire_edges, microwire_slave, slave_step, ended_on, slave_end};

use frames::engine::{Engine, Shift, Step, capture_step, offered};
use frames::lines::Pins;
use frames::master::data_bit;
use frames::slots::capture_width;
use registers::settings::{Format, Settings};
use registers::time::Slots;

// The pins that a slave sees in a cycle, and those that it saw in the cycle before.
#[derive(Clone, Copy)]
pub struct Seen {
    pub before: Pins,
    pub now: Pins,
}

impl Seen {
    // CLK leaves this level.
    fn clock_leaves(self, level: bool) -> bool
        ensures { result ≡ clock_leaves level self.before self.now }
    {
        (self.before.clk == level) & (self.now.clk != level)
    }

    fn clock_falls(self) -> bool
        ensures { result ≡ clock_falls self.before self.now }
    {
        self.clock_leaves(true)
    }

    fn clock_rises(self) -> bool
        ensures { result ≡ clock_rises self.before self.now }
    {
        self.clock_leaves(false)
    }

    // The clock edge from the idle level to the active one.
    fn to_active(self, s: Settings) -> bool
        ensures { result ≡ to_active s self.before self.now }
    {
        self.clock_leaves(s.polarity)
    }

    // The clock edge back to the idle level.
    fn to_idle(self, s: Settings) -> bool
        ensures { result ≡ to_idle s self.before self.now }
    {
        self.clock_leaves(!s.polarity)
    }

    fn capture_edge(self, s: Settings) -> bool
        ensures { result ≡ capture_edge s self.before self.now }
    {
        if s.phase {
            self.to_idle(s)
        } else {
            self.to_active(s)
        }
    }

    fn drive_edge(self, s: Settings) -> bool
        ensures { result ≡ drive_edge s self.before self.now }
    {
        if s.phase {
            self.to_active(s)
        } else {
            self.to_idle(s)
        }
    }
}

// How a slave takes a word, in every format. If it may not take one, it sends zeros. `may` and `next` are no Option, as in
// `frames::master`.
fn slave_take(s: Settings, e: Engine, may: bool, next: u16) -> Step
    ensures { result ≡ slave_take s e may next }
{
    Step::begun_if(may, e, Shift::started(s.bits as u16, offered(may, next)))
}

// Motorola and TI: with c bits captured the slave drives bit c.
fn slave_drive(s: Settings, e: Engine) -> Step
    ensures { result ≡ slave_drive s e }
{
    let c = e.shift.captured as u16;
    Step::no_word(e.with_shift(e.shift.driven(s.bits as u16, c)))
}

fn selected_of(e: Engine) -> Engine
    ensures { result ≡ selected_of e }
{
    e.with_frame(false, Shift::clear()).with_selected(true)
}

// A fall of FSS selects the slave; with SPH 0 it takes a word at once.
fn motorola_select(s: Settings, e: Engine, fell: bool, next: u16) -> Step
    ensures { result ≡ motorola_select s e fell next }
{
    if !fell {
        Step::no_word(e)
    } else if s.phase {
        Step::no_word(selected_of(e))
    } else {
        slave_take(s, selected_of(e), s.enabled, next)
    }
}

// In a word: capture or drive. Not in a word: with SPH 1 an edge to active takes a word.
fn motorola_clock(
    s: Settings,
    e: Engine,
    captures: bool,
    drives: bool,
    next: u16,
    bit: bool,
) -> Step
    ensures { result ≡ motorola_clock s e captures drives next bit }
{
    if e.frame & captures {
        capture_step(capture_width(s), bit, e)
    } else if e.frame & drives {
        slave_drive(s, e)
    } else if drives & s.phase {
        slave_take(s, e, s.enabled, next)
    } else {
        Step::no_word(e)
    }
}

// `mut`, as the copies of the engine in frames take it.
fn after_taking(took: bool, mut r: Step) -> Step
    ensures { result ≡ after_taking took r }
{
    r.takes |= took;
    r
}

// Edges of CLK count only while selected.
fn motorola_edges(s: Settings, r: Step, seen: Seen, next: u16) -> Step
    ensures { result ≡ motorola_edges s r seen.before seen.now next }
{
    let e = r.engine;
    if e.selected {
        let bit = data_bit(s, e.shift.level, seen.now.rxd);
        let step = motorola_clock(s, e, seen.capture_edge(s), seen.drive_edge(s), next, bit);
        after_taking(r.takes, step)
    } else {
        r
    }
}

// FSS HIGH deselects the slave and drops a part word. FSS comes before CLK.
fn motorola_slave(s: Settings, e: Engine, seen: Seen, next: u16) -> Step
    ensures { result ≡ motorola_slave s e seen.before seen.now next }
{
    if seen.now.fss {
        Step::no_word(Engine::cleared())
    } else {
        motorola_edges(s, motorola_select(s, e, seen.before.fss, next), seen, next)
    }
}

// `mut`, as the copies of the engine in frames take it.
fn with_mark(mut e: Engine, mark: bool) -> Engine
    ensures { result ≡ with_mark e mark }
{
    e.mark = mark;
    e
}

// In a word a fall of CLK captures a bit. With FSS HIGH it marks a start; before the last bit this drops the part word.
fn ti_falls(s: Settings, e: Engine, fss: bool, bit: bool) -> Step
    ensures { result ≡ ti_falls s e fss bit }
{
    let width = capture_width(s);
    let marked = with_mark(e, e.mark | fss);
    if !e.frame {
        Step::no_word(marked)
    } else if fss & (e.shift.captured as u16 + 1 < width as u16) {
        Step::no_word(with_mark(e.with_frame(false, Shift::clear()), true))
    } else {
        capture_step(width, bit, marked)
    }
}

// A rise of CLK takes the next word after a mark. Otherwise in a word it drives the next bit.
fn ti_rises(s: Settings, e: Engine, next: u16) -> Step
    ensures { result ≡ ti_rises s e next }
{
    if e.mark {
        slave_take(s, with_mark(e, false), s.enabled, next)
    } else if e.frame {
        slave_drive(s, e)
    } else {
        Step::no_word(e)
    }
}

fn ti_slave(s: Settings, e: Engine, seen: Seen, next: u16) -> Step
    ensures { result ≡ ti_slave s e seen.before seen.now next }
{
    if seen.clock_falls() {
        let bit = data_bit(s, e.shift.level, seen.now.rxd);
        ti_falls(s, e, seen.now.fss, bit)
    } else if seen.clock_rises() {
        ti_rises(s, e, next)
    } else {
        Step::no_word(e)
    }
}

fn ready() -> Engine
    ensures { result ≡ ready }
{
    Engine::cleared().with_selected(true)
}

// A fall of FSS selects the slave.
fn microwire_select(e: Engine, fell: bool) -> Engine
    ensures { result ≡ microwire_select e fell }
{
    if fell { ready() } else { e }
}

// Slot n begins with the last data bit's rise, or later.
fn data_over(s: Settings, n: u16) -> bool
    ensures { result ≡ data_over s n }
{
    17 + 2 * s.bits as u16 <= n
}

// A rise in a data bit; the rise in the last one ends the frame.
fn data_rises(s: Settings, e: Engine) -> Engine
    ensures { result ≡ data_rises s e }
{
    let n = e.slot.0;
    if (n % 2 == 0) & !data_over(s, n) {
        let last = data_over(s, n + 1);
        e.with_slot(Slots(n + 1))
            .with_frame(e.frame & !last, e.shift)
    } else {
        e
    }
}

// A rise latches a control bit; the ninth takes a word, unless SSE is clear; later ones are in data bits.
fn microwire_rises(s: Settings, e: Engine, next: u16, bit: bool) -> Step
    ensures { result ≡ microwire_rises s e next bit }
{
    let width = capture_width(s);
    if 17 <= e.slot.0 {
        Step::no_word(data_rises(s, e))
    } else if e.shift.captured < width {
        capture_step(width, bit, e.with_frame(true, e.shift))
    } else {
        slave_take(s, e.with_slot(Slots(17)), s.enabled, next)
    }
}

// A fall drives the next data bit, or ends the last one.
fn microwire_falls(s: Settings, e: Engine) -> Engine
    ensures { result ≡ microwire_falls s e }
{
    let n = e.slot.0;
    if data_over(s, n) {
        ready()
    } else if (17 <= n) & (n % 2 == 1) {
        e.with_slot(Slots(n + 1))
            .with_shift(e.shift.driven(s.bits as u16, n / 2 - 8))
    } else {
        e
    }
}

// Edges of CLK count only while selected.
fn microwire_edges(s: Settings, e: Engine, seen: Seen, next: u16) -> Step
    ensures { result ≡ microwire_edges s e seen.before seen.now next }
{
    if e.selected & seen.clock_rises() {
        microwire_rises(s, e, next, data_bit(s, false, seen.now.rxd))
    } else if e.selected & seen.clock_falls() {
        Step::no_word(microwire_falls(s, e))
    } else {
        Step::no_word(e)
    }
}

// FSS HIGH deselects the slave and drops a part frame. FSS comes before CLK.
fn microwire_slave(s: Settings, e: Engine, seen: Seen, next: u16) -> Step
    ensures { result ≡ microwire_slave s e seen.before seen.now next }
{
    if seen.now.fss {
        Step::no_word(Engine::cleared())
    } else {
        microwire_edges(s, microwire_select(e, seen.before.fss), seen, next)
    }
}

// A slave's step: it acts on the edges that it sees. The lines show the engine after it.
pub fn slave_step(s: Settings, e: Engine, seen: Seen, next: u16) -> Step
    ensures { result ≡ slave_step s e seen.before seen.now next }
{
    match s.format {
        Format::Motorola => motorola_slave(s, e, seen, next),
        Format::Ti => ti_slave(s, e, seen, next),
        Format::Microwire => microwire_slave(s, e, seen, next),
        Format::Reserved => Step::no_word(Engine::cleared()),
    }
}

fn ended_on(f: Format, e: Engine) -> Engine
    ensures { result ≡ ended_on f e }
{
    match f {
        Format::Motorola => e.with_frame(false, e.shift),
        Format::Ti | Format::Reserved => e.with_frame(false, Shift::clear()),
        Format::Microwire => e,
    }
}

// The end of a slave's cycle: the last capture ends a Motorola or TI frame.
pub fn slave_end(s: Settings, e: Engine) -> Engine
    ensures { result ≡ slave_end s e }
{
    if e.frame & (capture_width(s) <= e.shift.captured) {
        ended_on(s.format, e)
    } else {
        e
    }
}
