// Two devices wired together.
#![tactic(auto, unfolding(crate::specs::Pair::wire))]

ghost use Rattle.std.specs.Prelude.{◌≡◌};
ghost use Rattle.serial.specs.Pair.{wire, pair_of, PairRun};

use crate::Device;
use crate::lost::Losses;
use frames::lines::{Lines, Pins};

#[derive(Clone, Copy)]
pub struct Wired {
    pub first: Device,
    pub second: Device,
}

// What each device of a pair lost in a run.
#[derive(Clone, Copy)]
pub struct PairLosses {
    pub first: Losses,
    pub second: Losses,
}

// What the other device's pins read; a released TXD reads LOW. Not a From: it would not say that the
// lines are another device's.
pub fn wire(l: Lines) -> Pins
    ensures { result ≡ wire l }
{
    Pins {
        clk: l.clk,
        fss: l.fss,
        rxd: l.txd & !l.released,
    }
}

impl Wired {
    // A number of pair cycles: the pins of each device are the lines of the other in the cycle before.
    pub fn run(&mut self, cycles: u64) -> PairLosses
        ensures { PairRun cycles (pair_of self.old) result (pair_of self.new) }
    {
        let mut first = Losses::none();
        let mut second = Losses::none();
        for _ in 0..cycles {
            let to_second = wire(self.first.lines);
            let to_first = wire(self.second.lines);
            first.note(self.first.cycle(to_first));
            second.note(self.second.cycle(to_second));
        }
        PairLosses { first, second }
    }
}
