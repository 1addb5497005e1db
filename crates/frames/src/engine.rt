// The engine's state, and the steps of its shift registers.
#![tactic(auto, unfolding(crate::specs::Engine::started, crate::specs::Engine::driven, crate::specs::Engine::captured_of, crate::specs::Engine::completes, crate::specs::Engine::capture_step))]

ghost use Rattle.std.specs.Prelude.{◌≡◌};
ghost use Rattle.frames.specs.Engine.{active_of, clear_shift, cleared, while_active, with_shift, with_frame, with_slot, with_elapsed, with_selected, offered, loaded, started, driven, quieted, captured_of, completes, no_word, begun_if, begun, capture_step};

use crate::bits::{bit_of, cut, shifted_in};
use registers::settings::Settings;
use registers::time::{Cycles, Slots};

// The shift registers.
#[derive(Clone, Copy)]
pub struct Shift {
    // bits captured of the word being received
    pub captured: u8,
    // the level held for TXD
    pub level: bool,
    pub sending: u16,
    pub receiving: u16,
}

// The engine's state. Wide fields come first, so that there is no gap to copy.
#[derive(Clone, Copy)]
pub struct Engine {
    // the cycles of a master's slot that are over
    pub elapsed: Cycles,
    // a master's, and a Microwire slave's from the wait on
    pub slot: Slots,
    pub shift: Shift,
    // a frame is in progress
    pub frame: bool,
    // a Motorola or Microwire slave is selected
    pub selected: bool,
    // a TI slave has seen the mark of a start
    pub mark: bool,
}

// The result of a cycle's step.
#[derive(Clone, Copy)]
pub struct Step {
    pub engine: Engine,
    // the next word to send, if there is one, leaves the queue
    pub takes: bool,
    // the word that was completed, if there is one
    pub completed: Option<u16>,
}

// Copies with one field changed, here and in Engine, take `mut self`: with `..self` a cycle took 2 to 6 percent longer.
impl Shift {
    // Empty shift registers.
    pub fn clear() -> Shift
        ensures { result ≡ clear_shift }
    {
        Shift::loaded(0)
    }

    // A word is taken into the shift register; nothing of it is on TXD yet.
    pub fn loaded(word: u16) -> Shift
        ensures { result ≡ loaded word }
    {
        Shift {
            captured: 0,
            level: false,
            sending: word,
            receiving: 0,
        }
    }

    // A word's first bit becomes the level held for TXD; nothing is captured yet.
    pub fn started(width: u16, word: u16) -> Shift
        ensures { result ≡ started width word }
    {
        Shift::loaded(word).driven(width, 0)
    }

    // Bit i of the word being sent goes on TXD.
    pub fn driven(mut self, width: u16, i: u16) -> Shift
        ensures { result ≡ driven width i self }
    {
        self.level = bit_of(width, self.sending, i);
        self
    }

    // TXD goes LOW.
    pub fn quieted(mut self) -> Shift
        ensures { result ≡ quieted self }
    {
        self.level = false;
        self
    }

    // A bit is captured, unless the word has all its bits already.
    pub fn captured(mut self, width: u8, bit: bool) -> Shift
        ensures { result ≡ captured_of width bit self }
    {
        if self.captured < width {
            self.captured += 1;
            self.receiving = shifted_in(self.receiving, bit);
        }
        self
    }

    // Whether the next capture completes the word.
    pub fn completes(self, width: u8) -> bool
        ensures { result ≡ completes width self }
    {
        self.captured as u16 + 1 == width as u16
    }
}

impl Engine {
    // A clear engine.
    pub fn cleared() -> Engine
        ensures { result ≡ cleared }
    {
        Engine {
            slot: Slots(0),
            elapsed: Cycles(0),
            frame: false,
            selected: false,
            mark: false,
            shift: Shift::clear(),
        }
    }

    // Whether the engine is active: SSE is 1, or in edition 2 a frame is in progress. The engine's step, refusal 5 and
    // soundness depend on this.
    pub fn active(self, s: Settings) -> bool
        ensures { result ≡ active_of s self }
    {
        s.enabled | (self.frame & s.edition2)
    }

    // The engine while it is active, otherwise a clear one.
    pub fn while_active(self, s: Settings) -> Engine
        ensures { result ≡ while_active s self }
    {
        if self.active(s) {
            self
        } else {
            Engine::cleared()
        }
    }

    pub fn with_shift(mut self, shift: Shift) -> Engine
        ensures { result ≡ with_shift self shift }
    {
        self.shift = shift;
        self
    }

    pub fn with_frame(mut self, frame: bool, shift: Shift) -> Engine
        ensures { result ≡ with_frame self frame shift }
    {
        self.frame = frame;
        self.shift = shift;
        self
    }

    pub fn with_slot(mut self, slot: Slots) -> Engine
        ensures { result ≡ with_slot self slot }
    {
        self.slot = slot;
        self
    }

    pub(crate) fn with_elapsed(mut self, elapsed: Cycles) -> Engine
        ensures { result ≡ with_elapsed self elapsed }
    {
        self.elapsed = elapsed;
        self
    }

    pub fn with_selected(mut self, selected: bool) -> Engine
        ensures { result ≡ with_selected self selected }
    {
        self.selected = selected;
        self
    }
}

impl Step {
    // A step that takes no word and completes none.
    pub fn no_word(engine: Engine) -> Step
        ensures { result ≡ no_word engine }
    {
        Step {
            engine,
            takes: false,
            completed: None,
        }
    }

    // A frame is in progress now; the next word to send is taken if it may be.
    pub fn begun_if(may: bool, e: Engine, shift: Shift) -> Step
        ensures { result ≡ begun_if may e shift }
    {
        Step {
            engine: e.with_frame(true, shift),
            takes: may,
            completed: None,
        }
    }

    // A frame is in progress now; the next word to send is taken. It makes a step, so it is no method of the engine.
    pub fn begun(e: Engine, shift: Shift) -> Step
        ensures { result ≡ begun e shift }
    {
        Step::begun_if(true, e, shift)
    }
}

// The word to send: zeros if none may be taken. No Option: flag and word are as at `act`.
pub fn offered(may: bool, next: u16) -> u16
    ensures { result ≡ offered may next }
{
    if may { next } else { 0 }
}

// A capture, with the word that it completes.
pub fn capture_step(width: u8, bit: bool, e: Engine) -> Step
    ensures { result ≡ capture_step width bit e }
{
    let word = cut(width, shifted_in(e.shift.receiving, bit));
    Step {
        engine: e.with_shift(e.shift.captured(width, bit)),
        takes: false,
        completed: e.shift.completes(width).then_some(word),
    }
}
