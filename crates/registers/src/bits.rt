// The bits of a word, numbered from 0, the least significant.
#![tactic(auto, using(crate::proofs::BitLaws::bit_past))]

ghost use Rattle.std.specs.Prelude.{◌≡◌, ℕ};
ghost use Rattle.registers.specs.Bits.{bit_at, bits_differ, ValueOf};

// Bit `place` of a word; clear at 32 and above. All code of the device picks its bits here: the caller widens a narrower
// word, and converts a place that is counted from the top.
pub fn bit_at(word: u32, place: u32) -> bool
    ensures { result ≡ bit_at word place }
{
    if place < 32 {
        return (word >> place) % 2 == 1;
    }
    false
}

// Whether two words differ in bit `place`.
pub(crate) fn bits_differ(first: u32, second: u32, place: u32) -> bool
    ensures { result ≡ bits_differ first second place }
{
    bit_at(first, place) != bit_at(second, place)
}

// A type of words whose bits have weights.
pub trait Word {
    // The number that a word is.
    ghost number: { Self → ℕ };

    // The word with no bit set.
    fn zero() -> Self
        ensures { number result ≡ 0 };
}

impl Word for u8 {
    ghost number = { λ n. n };

    fn zero() -> u8 {
        0
    }
}

impl Word for u16 {
    ghost number = { λ n. n };

    fn zero() -> u16 {
        0
    }
}

// A flag as a bit of a word: the bit's weight if the flag is set, otherwise 0.
pub fn value_of<W: Word + Copy>(flag: bool, weight: W) -> W
    ensures { ValueOf flag (W.number weight) (W.number result) }
{
    if flag { weight } else { W::zero() }
}
