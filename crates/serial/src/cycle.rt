// One cycle of a device. Settings and engine, `waiting` and `next` stay apart here, as in `frames::master`.
// What is of the registers or frames alone has functions and no methods, since the types are of these crates.
#![tactic(auto, unfolding(crate::specs::Cycle::device_of, crate::specs::Cycle::device_step, crate::specs::Cycle::step_of, crate::specs::Cycle::tick_of, crate::specs::Cycle::end_of, crate::specs::Cycle::take_if, crate::specs::Cycle::cycle_of))]

ghost use Rattle.std.specs.Prelude.{◌≡◌};
ghost use Rattle.registers.specs.Choose.{words_of};
ghost use Rattle.registers.specs.Model.{model_of};
ghost use Rattle.serial.specs.Cycle.{device_of, step_of, tick_of, end_of, take_if, ReceiveIf, CycleOf, follow};

use crate::slave::{Seen, slave_end, slave_step};
use crate::{Device, History};
use frames::engine::{Engine, Step};
use frames::lines::{Pins, lines_of};
use frames::master::{master_end, master_step};
use registers::Registers;
use registers::settings::Settings;

impl History {
    // The pins of the last three cycles, this one included.
    fn follow(self, pins: Pins) -> History
        ensures { result ≡ follow self pins }
    {
        History {
            newest: pins,
            middle: self.newest,
            oldest: self.middle,
        }
    }
}

fn step_of(s: Settings, e: Engine, h: History, pins: Pins, waiting: bool, next: u16) -> Step
    ensures { result ≡ step_of s e h pins waiting next }
{
    if !e.active(s) {
        return Step::no_word(Engine::cleared());
    }
    if s.slave {
        let seen = Seen {
            before: h.oldest,
            now: h.middle,
        };
        return slave_step(s, e, seen, next);
    }
    master_step(s, e, waiting, next, pins.rxd)
}

// The end of a cycle: a master counts the cycle in its slot, a slave's last capture ends its frame.
fn tick_of(s: Settings, e: Engine) -> Engine
    ensures { result ≡ tick_of s e }
{
    if s.slave {
        slave_end(s, e)
    } else {
        master_end(s, e)
    }
}

// The engine at the end of the cycle; with SSE clear and no frame in progress it is clear.
fn end_of(s: Settings, e: Engine) -> Engine
    ensures { result ≡ end_of s e }
{
    tick_of(s, e).while_active(s)
}

fn take_if(r: &mut Registers, takes: bool)
    ensures { model_of r.new ≡ take_if (model_of r.old) takes }
{
    if takes {
        r.take_word();
    }
}

// Not `and_then`: tried, and the proof does not close for a closure that changes what it captures.
fn receive_if(r: &mut Registers, completed: Option<u16>) -> Option<u16>
    ensures { ReceiveIf (model_of r.old) completed (words_of result) (model_of r.new) }
{
    match completed {
        Some(word) => r.receive_word(word),
        None => None,
    }
}

impl Device {
    // One cycle: the engine's step, the queues, the timeout, the pins and the lines. It answers with the word lost, if any.
    pub fn cycle(&mut self, pins: Pins) -> Option<u16>
        ensures { CycleOf (device_of self.old) pins result (device_of self.new) }
    {
        let s = self.registers.settings();
        let waiting = self.registers.waiting();
        let next = self.registers.next_word();
        let step = step_of(s, self.engine, self.pins, pins, waiting, next);
        let after = end_of(s, step.engine);
        self.lines = lines_of(s, step.engine);
        self.engine = after;
        take_if(&mut self.registers, step.takes);
        let lost = receive_if(&mut self.registers, step.completed);
        self.registers.end_cycle(after.frame);
        self.pins = self.pins.follow(pins);
        lost
    }
}
