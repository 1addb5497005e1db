// Going through a recording, slot by slot: the reader's place, which byte fits there, the next place.
ghost use Rattle.std.specs.Prelude.{◌≡◌, false, ◌<◌};
ghost use Rattle.frames.specs.Lines.{byte_of};
ghost use Rattle.serial.specs.Drawing.{low, idle};
ghost use Rattle.judge.specs.Place.{motorola_table, ti_table, microwire_table, table_of, lead_byte, bit_byte, end_byte, wait_byte, room_for, place_by, last_bit, word_start, goes_on, entered, level_of, byte_at, after_bits, passed, over, step_of};

use registers::bits::{bit_at, value_of};
use registers::settings::{Format, Settings};

// Line bytes with nSSPOE HIGH: alone, with FSS, with FSS and CLK.
const QUIET: u8 = 8;

const MARKED: u8 = 10;

const MARKED_CLOCK: u8 = 11;

// The most words in the transmit queue.
const MOST_WORDS: u16 = 8;

// What a reader needs to know about a format's slots. The bytes have TXD LOW.
#[derive(Clone, Copy)]
pub struct Table {
    // the bits of a word
    pub width: u8,
    // slots before the first bit of a recording, and of a later word
    pub leads: u8,
    pub again: u8,
    // slots after a word's last bit
    pub waits: u8,
    // slots that come only after the last word
    pub closes: u8,
    // FSS HIGH with the last bit means that another word follows
    pub marks: bool,
    // CLK is LOW and HIGH in turn in the waiting slots
    pub clocked: bool,
    // the last slot before the first bit, and the one before it
    pub lead: u8,
    pub early: u8,
    // the two slots of a bit
    pub first: u8,
    pub second: u8,
    // the third slot from the end, and whether the last bit stays on TXD there
    pub hold: u8,
    pub holds: bool,
    pub idle: u8,
}

// The stages of a word's slots.
#[derive(Clone, Copy)]
pub enum Stage {
    // before the first bit
    Lead,
    // the first slot of a bit
    First,
    // its second slot
    Second,
    // after the last bit
    Wait,
    // the word is over: another word follows, or the last slots
    Turn,
    // the last slots
    Close,
}

// The slot that comes next.
#[derive(Clone, Copy)]
pub struct Place {
    pub stage: Stage,
    // how many slots are left in the stage; in First and Second, how many bits
    pub left: u8,
    // the bits of the word so far
    pub word: u16,
    // FSS was HIGH: another word follows
    pub more: bool,
    // the number of words before this one
    pub count: u8,
}

// The byte of a slot in a frame with TXD LOW; `clk` is CLK before SPO inverts it.
#[tactic(auto, unfolding(frames::specs::Lines::byte_of))]
fn low_byte(s: Settings, clk: bool) -> u8
    ensures { result ≡ byte_of (low s clk false) }
{
    let driven = frames::lines::clock_on(s.format, s.polarity, clk);
    value_of(driven, 1)
}

// The byte of an idle slot.
fn idle_byte(s: Settings) -> u8
    ensures { result ≡ byte_of (idle s) }
{
    u8::from(frames::lines::idle_on(s.format, s.polarity))
}

// The byte of a slot of a bit: `base` has its clock, `more` sets FSS HIGH.
#[tactic(auto, unfolding(crate::specs::Place::bit_byte))]
fn bit_byte(base: u8, more: bool, level: bool) -> u16
    ensures { result ≡ bit_byte base more level }
{
    base as u16 + value_of(more, 2) + value_of(level, 4)
}

impl Place {
    // A place with no word marked to follow.
    fn at(stage: Stage, left: u8, word: u16, count: u8) -> Place
        ensures { result ≡ place_by stage left word false count }
    {
        Place {
            stage,
            left,
            word,
            more: false,
            count,
        }
    }

    fn last_bit(self) -> bool
        ensures { result ≡ last_bit self }
    {
        bit_at(self.word as u32, 0)
    }

    // Whether another word may follow.
    #[tactic(auto, unfolding(crate::specs::Place::room_for))]
    fn room_for(self) -> bool
        ensures { result ≡ room_for self }
    {
        self.count as u16 + 1 < MOST_WORDS
    }

    // The data level of a slot with byte x.
    #[tactic(auto, unfolding(crate::specs::Place::level_of))]
    fn level_of(self, x: u8) -> bool
        ensures { result ≡ level_of self x }
    {
        // Arms apart, not `_`: so each stage has its own way through a step. Joined, a recording at h 1 takes a fifth longer.
        match self.stage {
            Stage::Lead => self.last_bit(),
            Stage::First => bit_at(x as u32, 2),
            Stage::Second => self.last_bit(),
            Stage::Wait => self.last_bit(),
            Stage::Turn => self.last_bit(),
            Stage::Close => self.last_bit(),
        }
    }
}

impl Table {
    #[tactic(auto, unfolding(crate::specs::Place::motorola_table))]
    fn motorola(s: Settings) -> Table
        ensures { result ≡ motorola_table s }
    {
        let low = low_byte(s, false);
        let (again, waits, closes) = if s.phase { (0, 0, 3) } else { (1, 3, 0) };
        Table {
            width: s.bits,
            leads: 1,
            again,
            waits,
            closes,
            marks: false,
            clocked: false,
            lead: low,
            early: low,
            first: low_byte(s, s.phase),
            second: low_byte(s, !s.phase),
            hold: low,
            holds: true,
            idle: idle_byte(s),
        }
    }

    #[tactic(auto, unfolding(crate::specs::Place::ti_table, frames::specs::Lines::byte_of))]
    fn ti(s: Settings) -> Table
        ensures { result ≡ ti_table s }
    {
        let idle = idle_byte(s);
        Table {
            width: s.bits,
            leads: 2,
            again: 0,
            waits: 0,
            closes: 0,
            marks: true,
            clocked: false,
            lead: MARKED,
            early: MARKED_CLOCK,
            first: low_byte(s, true),
            second: low_byte(s, false),
            hold: idle,
            holds: false,
            idle,
        }
    }

    #[tactic(auto, unfolding(crate::specs::Place::microwire_table, frames::specs::Lines::byte_of))]
    fn microwire(s: Settings) -> Table
        requires { s.bits < 17 }
        ensures { result ≡ microwire_table s }
    {
        let idle = idle_byte(s);
        Table {
            width: 8,
            leads: 0,
            again: 0,
            waits: 2 * s.bits + 2,
            closes: 3,
            marks: false,
            clocked: true,
            lead: idle,
            early: idle,
            first: low_byte(s, false),
            second: low_byte(s, true),
            hold: QUIET,
            holds: false,
            idle,
        }
    }

    // The table for these settings; the reserved format is never enabled. The bound is a `requires`: settings may have any `bits`.
    #[tactic(auto, unfolding(crate::specs::Place::table_of))]
    pub(crate) fn of(s: Settings) -> Table
        requires { s.bits < 17 }
        ensures { result ≡ table_of s }
    {
        match s.format {
            Format::Motorola | Format::Reserved => Table::motorola(s),
            Format::Ti => Table::ti(s),
            Format::Microwire => Table::microwire(s),
        }
    }

    #[tactic(auto, unfolding(crate::specs::Place::lead_byte))]
    fn lead_byte(self, n: u8) -> u16
        ensures { result ≡ lead_byte self n }
    {
        if n == 1 {
            self.lead as u16
        } else {
            self.early as u16
        }
    }

    #[tactic(auto, unfolding(crate::specs::Place::end_byte))]
    fn end_byte(self, level: bool, n: u8) -> u16
        ensures { result ≡ end_byte self level n }
    {
        if n == 3 {
            return self.hold as u16 + value_of(self.holds & level, 4);
        }
        self.idle as u16
    }

    #[tactic(auto, unfolding(crate::specs::Place::wait_byte))]
    fn wait_byte(self, level: bool, n: u8) -> u16
        ensures { result ≡ wait_byte self level n }
    {
        if self.clocked {
            // nSSPOE HIGH, and CLK HIGH in every other slot
            return 8 + (n % 2) as u16;
        }
        self.end_byte(level, n)
    }

    // The start of a word.
    #[tactic(auto, unfolding(crate::specs::Place::word_start))]
    pub(crate) fn word_start(self, leads: u8, count: u8) -> Place
        ensures { result ≡ word_start self leads count }
    {
        if leads == 0 {
            return Place::at(Stage::First, self.width, 0, count);
        }
        Place::at(Stage::Lead, leads, 0, count)
    }

    // Whether byte x begins another word.
    #[tactic(auto, unfolding(crate::specs::Place::goes_on))]
    fn goes_on(self, p: Place, x: u8) -> bool
        ensures { result ≡ goes_on self p x }
    {
        if self.marks {
            return p.more;
        }
        let closing = self.end_byte(p.last_bit(), self.closes);
        p.room_for() & ((self.closes == 0) | (x as u16 != closing))
    }

    // The place of byte x, which comes after p.
    #[tactic(auto, unfolding(crate::specs::Place::entered))]
    fn entered(self, p: Place, x: u8) -> Place
        requires { p.count < 8 }
        ensures { result ≡ entered self p x }
    {
        match p.stage {
            Stage::First => {
                let last = self.marks & (p.left == 1);
                let marked = bit_at(x as u32, 1) & p.room_for();
                Place {
                    more: last & marked,
                    ..p
                }
            }
            Stage::Turn => {
                if self.goes_on(p, x) {
                    return self.word_start(self.again, p.count + 1);
                }
                Place::at(Stage::Close, self.closes, p.word, p.count)
            }
            _ => p,
        }
    }

    // The byte of a slot.
    #[tactic(auto, unfolding(crate::specs::Place::byte_at))]
    fn byte_at(self, p: Place, level: bool) -> u16
        ensures { result ≡ byte_at self p level }
    {
        // Turn and Close apart for the reason at `level_of`.
        match p.stage {
            Stage::Lead => self.lead_byte(p.left),
            Stage::First => bit_byte(self.first, p.more, level),
            Stage::Second => bit_byte(self.second, p.more, level),
            Stage::Wait => self.wait_byte(level, p.left),
            Stage::Turn => self.end_byte(level, p.left),
            Stage::Close => self.end_byte(level, p.left),
        }
    }

    // The place after a word's last bit.
    #[tactic(auto, unfolding(crate::specs::Place::after_bits))]
    fn after_bits(self, p: Place) -> Place
        ensures { result ≡ after_bits self p }
    {
        if self.waits == 0 {
            return Place {
                stage: Stage::Turn,
                left: 0,
                ..p
            };
        }
        Place::at(Stage::Wait, self.waits, p.word, p.count)
    }

    // The place after a slot.
    #[tactic(auto, unfolding(crate::specs::Place::passed))]
    fn passed(self, p: Place, level: bool) -> Place
        ensures { result ≡ passed self p level }
    {
        let last = p.left == 1;
        let left = p.left.saturating_sub(1);
        match p.stage {
            Stage::Lead if last => Place::at(Stage::First, self.width, 0, p.count),
            Stage::Lead => Place::at(Stage::Lead, left, 0, p.count),
            Stage::First => Place {
                stage: Stage::Second,
                word: frames::bits::shifted_in(p.word, level),
                ..p
            },
            Stage::Second if last => self.after_bits(p),
            Stage::Second => Place::at(Stage::First, left, p.word, p.count),
            Stage::Wait if last => Place::at(Stage::Turn, 0, p.word, p.count),
            Stage::Wait => Place::at(Stage::Wait, left, p.word, p.count),
            Stage::Turn => p,
            Stage::Close => Place::at(Stage::Close, left, p.word, p.count),
        }
    }

    // Whether a recording may end here.
    #[tactic(auto, unfolding(crate::specs::Place::over))]
    pub(crate) fn over(self, p: Place) -> bool
        ensures { result ≡ over self p }
    {
        match p.stage {
            Stage::Turn => !p.more & (self.closes == 0),
            Stage::Close => p.left == 0,
            _ => false,
        }
    }

    // The place after byte x, if it fits the next slot.
    #[tactic(auto, unfolding(crate::specs::Place::step_of))]
    pub(crate) fn step(self, p: Place, x: u8) -> Option<Place>
        requires { p.count < 8 }
        ensures { result ≡ step_of self p x }
    {
        let here = self.entered(p, x);
        let level = here.level_of(x);
        let fits = !self.over(here) & (x as u16 == self.byte_at(here, level));
        fits.then_some(self.passed(here, level))
    }
}
