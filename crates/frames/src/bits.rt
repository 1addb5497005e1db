// Bits on the wire: most significant first.
#![tactic(auto, unfolding(crate::specs::Bits::bit_of, crate::specs::Bits::shifted_in))]

ghost use Rattle.std.specs.Prelude.{◌≡◌};
ghost use Rattle.frames.specs.Bits.{bit_of, cut, shifted_in};

use registers::bits::bit_at;

// Bit i of a word of `width` bits, counted from the most significant.
pub fn bit_of(width: u16, word: u16, i: u16) -> bool
    ensures { result ≡ bit_of width word i }
{
    bit_at(
        word as u32,
        width.saturating_sub(1).saturating_sub(i) as u32,
    )
}

// The low `width` bits of a word.
#[tactic(auto, using(crate::proofs::Words::cut_none))]
pub fn cut(width: u8, word: u16) -> u16
    ensures { result ≡ cut width word }
{
    if width < 16 {
        let size = 1u32 << (width as u32);
        (word as u32 % size) as u16
    } else {
        word
    }
}

// A bit is shifted in at the low end of a word.
pub fn shifted_in(word: u16, bit: bool) -> u16
    ensures { result ≡ shifted_in word bit }
{
    word.wrapping_mul(2) + bit as u16
}
