// What a master does in a cycle.
// Settings and engine stay two parameters: a step makes a new engine and never new settings. A struct of both, or a method of
// either, would name both all the same.
#![tactic(auto, unfolding(crate::specs::Master::joined_shift, crate::specs::Master::resting, crate::specs::Master::acting, crate::specs::Master::data_bit, crate::specs::Master::master_step, crate::specs::Master::ticked, crate::specs::Master::master_end))]

ghost use Rattle.std.specs.Prelude.{◌≡◌};
ghost use Rattle.frames.specs.Master.{joined_shift, drive_step, chain_step, join_step, join_capture, act, resting, acting, data_bit, master_step, ticked, master_end};

use crate::bits::bit_of;
use crate::engine::{Engine, Shift, Step, capture_step, offered};
use crate::lines::master_txd;
use crate::slots::{Event, capture_width, event_of, last_slot, width_of};
use registers::settings::Settings;
use registers::time::{Cycles, Slots};

// TI's joined word: the old word's last bit stays on TXD, its last capture is still to come.
// `mut`, as the copies of `engine` take it.
fn joined_shift(width: u16, i: u16, next: u16, mut shift: Shift) -> Shift
    ensures { result ≡ joined_shift width i next shift }
{
    shift.level = bit_of(width, shift.sending, i);
    shift.sending = next;
    shift
}

fn drive_step(s: Settings, e: Engine, i: u16) -> Step
    ensures { result ≡ drive_step s e i }
{
    Step::no_word(e.with_shift(e.shift.driven(width_of(s), i)))
}

// `waiting` and `next` go on from `act` as they came, here and in `join_step`.
fn chain_step(s: Settings, e: Engine, waiting: bool, next: u16, slot: Slots) -> Step
    ensures { result ≡ chain_step s e waiting next slot }
{
    if waiting {
        Step::begun(e.with_slot(slot), Shift::started(width_of(s), next))
    } else {
        Step::no_word(e)
    }
}

fn join_step(s: Settings, e: Engine, waiting: bool, next: u16, i: u16) -> Step
    ensures { result ≡ join_step s e waiting next i }
{
    if waiting {
        Step::begun(
            e.with_slot(Slots(0)),
            joined_shift(width_of(s), i, next, e.shift),
        )
    } else {
        drive_step(s, e, i)
    }
}

fn join_capture(s: Settings, e: Engine, bit: bool) -> Step
    ensures { result ≡ join_capture s e bit }
{
    if e.shift.captured == 0 {
        Step::no_word(e)
    } else {
        capture_step(capture_width(s), bit, e)
    }
}

// What an event does. `waiting`: a word waits to be sent, the oldest is `next`. `bit`: the level that a capture takes.
// `waiting` and `next` are no Option: the promise holds with any `next` where none waits.
pub fn act(s: Settings, e: Engine, waiting: bool, next: u16, bit: bool, event: Event) -> Step
    ensures { result ≡ act s e waiting next bit event }
{
    let may = s.enabled;
    let word = offered(may, next);
    match event {
        Event::Begin => Step::begun_if(may, e, Shift::loaded(word)),
        Event::BeginDrive => Step::begun_if(may, e, Shift::started(width_of(s), word)),
        Event::Drive(i) => drive_step(s, e, i),
        Event::First => {
            Step::no_word(e.with_shift(Shift::started(width_of(s), e.shift.sending)))
        }
        Event::Capture => capture_step(capture_width(s), bit, e),
        Event::Chain(n) => chain_step(s, e, waiting, next, n),
        Event::JoinDrive(i) => join_step(s, e, waiting, next, i),
        Event::JoinCapture => join_capture(s, e, bit),
        Event::Quiet => Step::no_word(e.with_shift(e.shift.quieted())),
        Event::Release => Step::no_word(e.with_frame(false, Shift::clear())),
        Event::Pause => Step::no_word(e),
    }
}

impl Engine {
    // At rest: not in a frame and not in an idle slot.
    pub fn resting(self) -> bool
        ensures { result ≡ resting self }
    {
        (!self.frame & (self.slot.0 == 0)) & (self.elapsed.0 == 0)
    }

    fn acting(self, waiting: bool) -> bool
        ensures { result ≡ acting self waiting }
    {
        (self.frame & (self.elapsed.0 == 0)) | (self.resting() & waiting)
    }
}

// The level that a capture takes: RXD, in loopback the device's own TXD.
pub fn data_bit(s: Settings, txd: bool, rxd: bool) -> bool
    ensures { result ≡ data_bit s txd rxd }
{
    if s.loopback { txd } else { rxd }
}

// A master's step: the event of this cycle, if there is one. The lines show the engine after it. `waiting` and `next` are no
// Option, as in `act`.
pub fn master_step(s: Settings, e: Engine, waiting: bool, next: u16, rxd: bool) -> Step
    ensures { result ≡ master_step s e waiting next rxd }
{
    if e.acting(waiting) {
        let bit = data_bit(s, master_txd(s, e), rxd);
        act(s, e, waiting, next, bit, event_of(s, e.slot))
    } else {
        Step::no_word(e)
    }
}

// A cycle of the slot is over.
fn ticked(s: Settings, e: Engine) -> Engine
    ensures { result ≡ ticked s e }
{
    let elapsed = e.elapsed.0 as u64 + 1;
    if elapsed < s.divisor.0 as u64 {
        e.with_elapsed(Cycles(elapsed as u32))
    } else if e.slot.0 < last_slot(s).0 {
        e.with_slot(Slots(e.slot.0 + 1)).with_elapsed(Cycles(0))
    } else {
        Engine::cleared()
    }
}

// The end of a master's cycle.
pub fn master_end(s: Settings, e: Engine) -> Engine
    ensures { result ≡ master_end s e }
{
    if e.resting() { e } else { ticked(s, e) }
}
