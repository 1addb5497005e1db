// What the serial engine does to the register file.
#![tactic(auto, using(crate::specs::Model::Inside::model_of_lem, crate::proofs::Arrivals::some_by), unfolding(crate::specs::Transfer::waiting_of, crate::specs::Transfer::next_word, crate::specs::Transfer::take_word, crate::specs::Transfer::receive_word, crate::specs::Transfer::lost_word, queue::specs::Fifo::dropped, crate::specs::Transfer::idles_of, crate::specs::Transfer::limit_of, crate::specs::Transfer::timeout_of, crate::specs::Transfer::end_cycle, crate::specs::Time::cycles_of))]

ghost use Rattle.std.specs.Prelude.{◌≡◌};
ghost use Rattle.registers.specs.Model.{model_of};
ghost use Rattle.registers.specs.Choose.{words_of};
ghost use Rattle.registers.specs.Transfer.{waiting_of, next_word, take_word, ReceiveWord, idles_of, LimitOf, timeout_of, end_cycle};

use crate::Registers;
use crate::time::{Cycles, Slots, cycles_of};

// RT is set after 32 bit times, which are 64 slots.
const TIMEOUT: Slots = Slots(64);

impl Registers {
    // Whether a word waits to be sent.
    pub fn waiting(&self) -> bool
        ensures { result ≡ waiting_of (model_of self.now) }
    {
        self.enabled() & (self.tx.count() != 0)
    }

    // The oldest word in the transmit queue; 0 if there is none. Not an Option: with no word to take, zeros are sent.
    pub fn next_word(&self) -> u16
        ensures { result ≡ next_word (model_of self.now) }
    {
        self.tx.word_at(0)
    }

    // The oldest word leaves the transmit queue.
    pub fn take_word(&mut self)
        ensures { model_of self.new ≡ take_word (model_of self.old) }
    {
        self.tx.take_oldest();
    }

    // A completed word is kept; with eight held it is handed back as lost, and ROR is set. RT is always cleared; its count stays.
    pub fn receive_word(&mut self, word: u16) -> Option<u16>
        ensures { ReceiveWord (model_of self.old) word (words_of result) (model_of self.new) }
    {
        self.timeout.rt = false;
        let lost = self.rx.add(word);
        // Not `|=`, by which many arriving words take longer.
        if lost.is_some() {
            self.ror = true;
        }
        lost
    }

    // Whether a cycle counts for RT.
    fn idles(&self, frame: bool) -> bool
        ensures { result ≡ idles_of (model_of self.now) frame }
    {
        ((self.rx.count() != 0) & self.enabled()) & !frame
    }

    // The cycles after which RT is set.
    pub(crate) fn limit(&self) -> Cycles
        ensures { LimitOf (model_of self.now) result }
    {
        cycles_of(TIMEOUT, self.control.divisor())
    }

    // The timeout at the end of a cycle; `frame` says whether a frame is in progress then.
    pub fn end_cycle(&mut self, frame: bool)
        ensures { model_of self.new ≡ end_cycle (model_of self.old) frame }
    {
        let counts = self.idles(frame);
        if !counts {
            self.timeout.count = Cycles(0);
            return;
        }
        let next = self.timeout.count.0 as u64 + 1;
        if self.limit().0 as u64 <= next {
            self.timeout.rt = true;
            self.timeout.count = Cycles(0);
            return;
        }
        self.timeout.count = Cycles(next as u32);
    }
}
