// Reading a text as cycles and line starts.
ghost use Rattle.std.specs.Prelude.{◌≡◌};
ghost use Rattle.text.specs.Refusals.{refusal_number};
ghost use Rattle.text.specs.Read.{refusal_at, digit_run, reading_of, reading_numbers, Check, Room, Fill, ReadText};

use crate::characters;
use crate::characters::{Character, LINE_FEED};
use crate::put::put_mapped;
use crate::refusals::{MOST_CYCLES, Refusal};

// How many cycles and line starts a text has.
#[derive(Clone, Copy, Debug, PartialEq, Eq)]
pub struct Counts {
    pub cycles: usize,
    pub starts: usize,
}

// Whether a character is refused; `cycles` come before it, and `begun` says whether its line has a digit already.
fn refusal_at(cycles: usize, begun: bool, kind: Character) -> Result<(), Refusal>
    ensures { refusal_number result ≡ refusal_at cycles begun kind }
{
    match kind {
        Character::Digit(_) if cycles < MOST_CYCLES => Ok(()),
        Character::Digit(_) => Err(Refusal::TooManyCycles),
        Character::LineFeed if begun => Ok(()),
        Character::LineFeed => Err(Refusal::EmptyLine),
        Character::Other => Err(Refusal::BadCharacter),
    }
}

// How many digits the bytes begin with.
fn digit_run(bytes: &[u8]) -> usize
    ensures { result ≡ digit_run bytes.now }
{
    bytes
        .iter()
        .take_while(|byte| characters::is_digit(**byte))
        .count()
}

// Checks a text line by line, up to the character that decides.
fn check(text: &[u8]) -> Result<Counts, Refusal>
    ensures { Check text.now (reading_numbers (reading_of result)) }
{
    let mut cycles: usize = 0;
    let mut starts: usize = 0;
    let mut rest = text;
    // Not over `split_inclusive`: the digits of a line lead to its end, so that each byte is looked at once.
    while !rest.is_empty() {
        let most = rest.len().min(MOST_CYCLES - cycles);
        let run = digit_run(&rest[..most]);
        let Some(byte) = rest.get(run) else {
            return Err(Refusal::NoLineFeed);
        };
        refusal_at(cycles + run, 0 < run, Character::from(*byte))?;
        cycles += run;
        starts += 1;
        rest = &rest[run + 1..];
    }
    Ok(Counts { cycles, starts })
}

// Writes the cycles and line starts of an accepted text, line by line, into buffers that are long enough.
fn fill(text: &[u8], cycles: &mut [u8], starts: &mut [u32])
    requires { Room text.now cycles.old starts.old }
    ensures { Fill text.now cycles.old starts.old cycles.new starts.new }
{
    let mut n: usize = 0;
    // By index, as in `put_mapped`. An accepted line ends in its line feed.
    for (m, line) in text.split_inclusive(|byte| *byte == LINE_FEED).enumerate() {
        starts[m] = n as u32;
        n = put_mapped(&line[..line.len() - 1], characters::value_of, cycles, n);
    }
}

// Reads a text: its cycles go to one buffer, its line starts, the number of the first cycle of each line, to the other.
pub fn read_text(text: &[u8], cycles: &mut [u8], starts: &mut [u32]) -> Result<Counts, Refusal>
    ensures { ReadText text.now cycles.old starts.old (reading_of result) cycles.new starts.new }
{
    let found = check(text)?;
    if cycles.len() < found.cycles || starts.len() < found.starts {
        return Err(Refusal::TooShort);
    }
    fill(text, cycles, starts);
    Ok(found)
}
