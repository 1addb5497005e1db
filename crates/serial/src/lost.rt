// The words lost to overrun, as a run hands them up.
ghost use Rattle.std.specs.Prelude.{◌≡◌};
ghost use Rattle.serial.specs.Lost.{none_lost, noted};

// How many words were lost, and the last of them, 0 if none. No Option for the last: `losses_of` gives 0 there.
#[derive(Clone, Copy)]
pub struct Losses {
    pub count: u64,
    // as wide as the count, so that no gap is left at the end
    pub last: u64,
}

impl Losses {
    // No word was lost.
    pub fn none() -> Losses
        ensures { result ≡ none_lost }
    {
        Losses { count: 0, last: 0 }
    }

    // Counts the word that one more cycle lost, if there is one.
    pub fn note(&mut self, lost: Option<u16>)
        ensures { self.new ≡ noted self.old lost }
    {
        if let Some(word) = lost {
            self.count = self.count.saturating_add(1);
            self.last = u64::from(word);
        }
    }
}
