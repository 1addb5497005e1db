// The characters of a text, and their cycles.
ghost use Rattle.std.specs.Prelude.{◌≡◌};
ghost use Rattle.text.specs.Text.{digit_of, character_of, is_digit};
ghost use Rattle.text.specs.Read.{value_of};

pub const LINE_FEED: u8 = b'\n';

// What a byte of a text is.
#[derive(Clone, Copy, Debug, PartialEq, Eq)]
pub enum Character {
    // a digit, with its cycle
    Digit(u8),
    LineFeed,
    Other,
}

// A byte as a character.
impl From<u8> for Character {
    ghost from_gives = { λ byte result. result ≡ character_of byte };

    #[tactic(auto, using(crate::proofs::Digits::digit_value, crate::proofs::Digits::read_other), unfolding(crate::specs::Text::character_of))]
    fn from(byte: u8) -> Character {
        match byte {
            LINE_FEED => Character::LineFeed,
            _ if is_digit(byte) => Character::Digit(value_of(byte)),
            _ => Character::Other,
        }
    }
}

// The digit of a cycle; 0 for a cycle above 15, which has none. Not an Option: whoever writes has refused such cycles before.
#[tactic(auto, unfolding(crate::specs::Text::digit_of))]
pub fn digit_of(cycle: u8) -> u8
    ensures { result ≡ digit_of cycle }
{
    match cycle {
        0..=9 => b'0' + cycle,
        10..=15 => b'A' + (cycle - 10),
        _ => 0,
    }
}

// Whether a byte is a digit. Not one match over both ranges: in a loop that branches twice a byte, and reading takes a third longer.
#[tactic(auto, unfolding(crate::specs::Text::character_of))]
pub fn is_digit(byte: u8) -> bool
    ensures { result ≡ is_digit (character_of byte) }
{
    byte.is_ascii_digit() | matches!(byte, b'A'..=b'F')
}

// The cycle of a digit; for another byte the value means nothing. No branch, so that a loop can take many digits at once.
#[tactic(auto, unfolding(crate::specs::Read::value_of))]
pub fn value_of(byte: u8) -> u8
    ensures { result ≡ value_of byte }
{
    byte % 16 + 9 * (b'A' <= byte) as u8
}
