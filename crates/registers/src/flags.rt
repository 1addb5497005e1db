// The status register and the interrupts.
#![tactic(auto, using(crate::specs::Model::Inside::model_of_lem), unfolding(crate::specs::Flags::busy_of, crate::specs::Flags::status_of, crate::specs::Flags::raw_of, crate::specs::Flags::masked_of, crate::specs::Flags::interrupt_word))]

ghost use Rattle.std.specs.Prelude.{◌≡◌};
ghost use Rattle.registers.specs.Model.{model_of};
ghost use Rattle.registers.specs.Flags.{busy_of, status_of, raw_of, masked_of, interrupt_word};

use crate::Registers;
use crate::bits::{self, value_of};

// The four interrupts, raw or masked.
#[derive(Clone, Copy)]
pub struct Interrupts {
    pub tx: bool,
    pub rx: bool,
    pub rt: bool,
    pub ror: bool,
}

// RIS or MIS as a word.
impl From<Interrupts> for u16 {
    ghost from_gives = { λ i r. r ≡ interrupt_word i };

    fn from(i: Interrupts) -> u16 {
        value_of(i.tx, 8u16) + value_of(i.rx, 4) + value_of(i.rt, 2) + value_of(i.ror, 1)
    }
}

impl Registers {
    // BSY: a frame is in progress, or the transmit queue is not empty.
    pub fn busy(&self, frame: bool) -> bool
        ensures { result ≡ busy_of (model_of self.now) frame }
    {
        frame | (self.tx.count() != 0)
    }

    // SR as a word.
    pub fn status(&self, frame: bool) -> u16
        ensures { result ≡ status_of (model_of self.now) frame }
    {
        let waiting = self.tx.count();
        let held = self.rx.count();
        value_of(self.busy(frame), 16u16)
            + value_of(queue::PLACES <= held, 8)
            + value_of(held != 0, 4)
            + value_of(waiting < queue::PLACES, 2)
            + value_of(waiting == 0, 1)
    }

    // The interrupts before masking.
    pub fn raw(&self) -> Interrupts
        ensures { result ≡ raw_of (model_of self.now) }
    {
        Interrupts {
            tx: self.tx.count() <= 4,
            rx: 4 <= self.rx.count(),
            rt: self.timeout.rt,
            ror: self.ror,
        }
    }

    // The interrupts that IMSC lets through.
    pub fn masked(&self) -> Interrupts
        ensures { result ≡ masked_of (model_of self.now) }
    {
        let raw = self.raw();
        let mask = self.masks.imsc as u32;
        Interrupts {
            tx: raw.tx & bits::bit_at(mask, 3),
            rx: raw.rx & bits::bit_at(mask, 2),
            rt: raw.rt & bits::bit_at(mask, 1),
            ror: raw.ror & bits::bit_at(mask, 0),
        }
    }
}
