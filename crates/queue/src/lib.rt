// A queue of at most eight 16-bit words, first in, first out.
// Every function takes any value: a stored count above eight acts as eight.
#![tactic(auto, using(crate::proofs::Contents::count_holds, crate::proofs::Contents::empty_holds, crate::proofs::Contents::word_held))]

ghost use Rattle.std.specs.Prelude.{◌≡◌};
ghost use Rattle.queue.specs.Fifo.{contents, word_at, Empty, Count, Add, TakeOldest, Restored};

// How many words a queue can hold.
pub const PLACES: usize = 8;

// The oldest word is at index 0.
// An array and a count, not a Vec: no heap, and a device is a plain value that is copied. That unused places are zero stands in
// contracts (`Clean`), not in the type: docs/PROOFS.md names them.
#[derive(Clone, Copy)]
pub struct Queue {
    words: [u16; PLACES],
    count: usize,
}

impl Queue {
    // An empty queue.
    pub fn empty() -> Queue
        ensures { Empty result }
    {
        Queue {
            words: [0; PLACES],
            count: 0,
        }
    }

    // How many words are in the queue.
    pub fn count(&self) -> usize
        ensures { Count self.now result }
    {
        self.count.min(PLACES)
    }

    // A word is added at the end; a full queue stays as it is, and the word is handed back.
    pub fn add(&mut self, word: u16) -> Option<u16>
        ensures { Add self.old word result self.new }
    {
        let n = self.count;
        if PLACES <= n {
            return Some(word);
        }
        self.words[n] = word;
        self.count = n + 1;
        None
    }

    // The oldest word is taken out; the others move one place to the front.
    pub fn take_oldest(&mut self) -> Option<u16>
        ensures { TakeOldest self.old result self.new }
    {
        let n = self.count();
        if n == 0 {
            return None;
        }
        let oldest = self.words[0];
        self.words.copy_within(1.., 0);
        self.words[PLACES - 1] = 0;
        self.count = n - 1;
        Some(oldest)
    }

    // The word at a place, counted from the oldest; 0 after the last. Not an Option: a record keeps 0 in unused places.
    pub fn word_at(&self, place: usize) -> u16
        ensures { result ≡ word_at (contents self.now) place }
    {
        if place < self.count() {
            self.words[place]
        } else {
            0
        }
    }

    // A queue of the first `count` of eight words.
    pub fn restored(words: [u16; 8], count: usize) -> Queue
        ensures { Restored words count result }
    {
        let mut clean = words;
        for (place, word) in clean.iter_mut().enumerate() {
            // No branch, so that the loop can take all places at once; a `fill` of the others is slower.
            let used = (place < count) as u16;
            *word = word.wrapping_mul(used);
        }
        Queue {
            words: clean,
            count,
        }
    }
}
