// The commands of a case.
use registers::Registers;
use registers::refusals::Refusal;

const CR0: u32 = 0x00;

const CR1: u32 = 0x04;

const DR: u32 = 0x08;

const CPSR: u32 = 0x10;

// A word if the command gives one, or a refusal.
pub(crate) type Outcome = Result<Option<u32>, Refusal>;

#[derive(Clone, Copy)]
enum Command {
    // reset
    Start,
    // reset, then set up and enabled as a master
    Enable { cr0: u32, cpsr: u32 },
    Write { offset: u32, value: u32 },
    // with no frame in progress
    Read { offset: u32 },
    // a read with a frame in progress
    Peek { offset: u32 },
    // the words 1 to `words` are written to DR
    Load { words: u32 },
    // the words 1 to `words` arrive; gives the last one if it is lost
    Arrive { words: u16 },
    // cycles that end with no frame in progress
    Cycles { count: u32 },
    // a cycle that ends with a frame in progress
    Frame,
    // the oldest word to send is taken
    Take,
    // h
    Divisor,
    // b
    Bits,
    // bit `place` of a word
    Inspect { word: u32, place: u32 },
}

// Reading a command ---------------------------------------------------------------------------------------------------

// A number, decimal, or hexadecimal after an x.
// Not `parse`: any text is a number. What is no digit counts as 0, and only the low 28 bits go on to the next digit.
fn number(text: &[u8]) -> u32 {
    let mut is_hex = false;
    let mut sum = 0;
    for byte in text {
        if *byte == b'x' {
            is_hex = true;
        } else {
            let radix = if is_hex { 16 } else { 10 };
            let digit = char::from(*byte).to_digit(16).unwrap_or(0);
            sum = sum % 0x1000_0000 * radix + digit;
        }
    }
    sum
}

// The last two numbers of a text, 0 where there are fewer, no Option: a command takes a missing number as 0. A number goes
// from a byte up to '9' to the next space.
fn last_two(text: &[u8]) -> (u32, u32) {
    let mut first = 0;
    let mut last = 0;
    for word in text.split(|b| *b == b' ') {
        if let Some(start) = word.iter().position(|b| *b <= b'9') {
            first = last;
            last = number(&word[start..]);
        }
    }
    (first, last)
}

impl Command {
    // The command of a text. Its name is known by the first letter, after spaces and zero bytes.
    //   start, enable CR0 CPSR, write OFFSET VALUE, read OFFSET, peek OFFSET, load N, arrive N, cycles N, frame, take, h,
    //   bits, inspect WORD PLACE
    fn parse(text: &[u8]) -> Option<Command> {
        let mut bytes = text.iter();
        let letter = *bytes.find(|b| **b != b' ' && **b != 0)?;
        let (first, last) = last_two(bytes.as_slice());
        let command = match letter {
            b's' => Command::Start,
            b'e' => Command::Enable {
                cr0: first,
                cpsr: last,
            },
            b'w' => Command::Write {
                offset: first,
                value: last,
            },
            b'r' => Command::Read { offset: last },
            b'p' => Command::Peek { offset: last },
            b'l' => Command::Load { words: last },
            b'a' => Command::Arrive {
                words: (last % 0x10000) as u16,
            },
            b'c' => Command::Cycles { count: last },
            b'f' => Command::Frame,
            b't' => Command::Take,
            b'h' => Command::Divisor,
            b'b' => Command::Bits,
            b'i' => Command::Inspect {
                word: first,
                place: last,
            },
            _ => return None,
        };
        Some(command)
    }
}

// Running it ----------------------------------------------------------------------------------------------------------

// Functions, since the registers are of another crate.
pub(crate) fn reset() -> Registers {
    Registers::reset(false)
}

fn write(r: &mut Registers, offset: u32, value: u32) -> Result<(), Refusal> {
    let active = r.enabled();
    r.write(active, offset, value)
}

fn take(r: &mut Registers) -> u16 {
    let word = r.next_word();
    r.take_word();
    word
}

// A write that is refused changes nothing, and is not shown.
fn enable(r: &mut Registers, cr0: u32, cpsr: u32) {
    *r = reset();
    let _ = write(r, CR0, cr0);
    let _ = write(r, CPSR, cpsr);
    let _ = write(r, CR1, 0x2);
}

fn load(r: &mut Registers, words: u32) {
    for word in 1..=words {
        let _ = write(r, DR, word);
    }
}

// The last of the words, if it is lost.
fn arrive(r: &mut Registers, words: u16) -> Option<u16> {
    let mut lost = None;
    // Not over `1..=words`, where a word takes twice as long.
    for before in 0..words {
        lost = r.receive_word(before + 1);
    }
    lost
}

impl Command {
    // What the command gives; a refused one leaves the registers as they were.
    fn run(self, r: &mut Registers) -> Outcome {
        let word = match self {
            Command::Start => {
                *r = reset();
                None
            }
            Command::Enable { cr0, cpsr } => {
                enable(r, cr0, cpsr);
                None
            }
            Command::Write { offset, value } => {
                write(r, offset, value)?;
                None
            }
            Command::Read { offset } => Some(u32::from(r.read(offset, false)?)),
            Command::Peek { offset } => Some(u32::from(r.read(offset, true)?)),
            Command::Load { words } => {
                load(r, words);
                None
            }
            Command::Arrive { words } => arrive(r, words).map(u32::from),
            Command::Cycles { count } => {
                for _ in 0..count {
                    r.end_cycle(false);
                }
                None
            }
            Command::Frame => {
                r.end_cycle(true);
                None
            }
            Command::Take => Some(u32::from(take(r))),
            Command::Divisor => Some(u32::from(r.settings().divisor.0)),
            Command::Bits => Some(u32::from(r.settings().bits)),
            Command::Inspect { word, place } => {
                Some(u32::from(registers::bits::bit_at(word, place)))
            }
        };
        Ok(word)
    }
}

// Runs the command of a text; one that has no known name does nothing.
pub(crate) fn run(r: &mut Registers, text: &[u8]) -> Outcome {
    Command::parse(text).map_or(Ok(None), |command| command.run(r))
}
