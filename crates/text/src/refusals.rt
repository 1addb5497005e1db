// Why writing or reading a text is refused, and the limit on cycles.
ghost use Rattle.std.specs.Prelude.{◌≡◌};
ghost use Rattle.text.specs.Refusals.{number};

// A refusal; C gets its number.
#[derive(Clone, Copy, Debug, PartialEq, Eq)]
pub enum Refusal {
    TooManyCycles = 13,
    BadCycle = 14,
    BadPlaces = 15,
    TooShort = 16,
    BadCharacter = 17,
    EmptyLine = 18,
    NoLineFeed = 19,
}

impl From<Refusal> for u8 {
    ghost from_gives = { λ refusal result. result ≡ number refusal };

    fn from(refusal: Refusal) -> u8 {
        refusal as u8
    }
}

// How many cycles fit into a text.
pub const MOST_CYCLES: usize = 4096;
