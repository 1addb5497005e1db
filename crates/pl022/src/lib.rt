// The calls for C, which include/pl022.h describes. Each passes its arguments to a crate below and returns its answer.
// No rule of the device, of texts or of the judge is in this crate. Its structs are those of C, so refusals are numbers here.
#![tactic(auto)]

ghost use Rattle.std.specs.Prelude.{◌≡◌, MatchResult};
ghost use Rattle.device_record.specs.Calls.{first_edition, run_answer, ResetCall, WriteCall};
ghost use Rattle.device_record.specs.declared.run.Stop.TheVariants.{Never, NotBusy};
ghost use Rattle.pl022.specs.Results.{ReadResult, ran_numbers, RunResult, PairResult, WriteTextResult, ReadTextResult, JudgeResult, DifferenceResult};

use device_record::calls::Edition;
use device_record::refusals::Refusal;
use device_record::run::{Losses, Ran, Stop};

// What a read answers.
#[repr(C)]
#[derive(Clone, Copy)]
pub struct WordResult {
    pub refusal: u32,
    // 0 if refused
    pub word: u32,
}

// Words lost to overrun.
#[repr(C)]
#[derive(Clone, Copy, Default)]
pub struct LostResult {
    pub count: u64,
    // the last of them, 0 if none
    pub last: u64,
}

impl From<Losses> for LostResult {
    ghost from_gives = { λ l r. (r.count ≡ l.count) × (r.last ≡ l.last) };

    fn from(lost: Losses) -> LostResult {
        LostResult {
            count: lost.count,
            last: lost.last,
        }
    }
}

// What a run answers.
#[repr(C)]
#[derive(Clone, Copy)]
pub struct RanResult {
    pub refusal: u64,
    // cycles run, 0 if refused
    pub count: u64,
    // words lost in these cycles
    pub lost: LostResult,
}

// What a pair run answers.
#[repr(C)]
#[derive(Clone, Copy)]
pub struct PairRanResult {
    pub refusal: u64,
    // words lost by each device; zeros if refused
    pub first: LostResult,
    pub second: LostResult,
}

// What writing a text and judging a recording answer.
#[repr(C)]
#[derive(Clone, Copy)]
pub struct CountResult {
    pub refusal: u64,
    // bytes written, words found or leading cycles, otherwise 0
    pub count: u64,
}

// What reading a text answers.
#[repr(C)]
#[derive(Clone, Copy)]
pub struct TextResult {
    pub refusal: u64,
    // cycles and line starts written, 0 if refused
    pub cycles: u64,
    pub starts: u64,
}

// A part of one of two recordings.
#[repr(C)]
#[derive(Clone, Copy)]
pub struct PartResult {
    // 1 if it is a part of the second recording, otherwise 0
    pub second: u64,
    pub start: u64,
    pub length: u64,
}

// The refusal number of an answer, 0 if it is done.
fn number<T: Copy, E>(answer: Result<T, E>) -> u8
where
    E: Copy + Into<u8>,
    ensures { MatchResult answer (λ _. result ≡ 0) (λ e. E.converts e result) }
{
    match answer {
        Ok(_) => 0,
        Err(refusal) => refusal.into(),
    }
}

// Makes the record a device after reset, of edition 1, whatever it held.
#[unsafe(no_mangle)]
pub extern "C" fn pl022_reset(bytes: &mut [u8]) -> u32
    ensures { ResetCall bytes.old first_edition result bytes.new }
{
    number(device_record::calls::reset_call(bytes, Edition::First as u32)) as u32
}

// The same for edition 1 or 2; any other edition is refused.
#[unsafe(no_mangle)]
pub extern "C" fn pl022_reset_edition(bytes: &mut [u8], edition: u32) -> u32
    ensures { ResetCall bytes.old edition result bytes.new }
{
    number(device_record::calls::reset_call(bytes, edition)) as u32
}

// Reads a register.
#[unsafe(no_mangle)]
pub extern "C" fn pl022_read(bytes: &mut [u8], offset: u32) -> WordResult
    ensures { ReadResult bytes.old offset result bytes.new }
{
    let answer = device_record::calls::read_call(bytes, offset);
    let Ok(word) = answer else {
        return WordResult {
            refusal: number(answer) as u32,
            word: 0,
        };
    };
    WordResult {
        refusal: 0,
        word: word as u32,
    }
}

// Writes a register.
#[unsafe(no_mangle)]
pub extern "C" fn pl022_write(bytes: &mut [u8], offset: u32, value: u32) -> u32
    ensures { WriteCall bytes.old offset value result bytes.new }
{
    number(device_record::calls::write_call(bytes, offset, value)) as u32
}

// A run's answer as numbers.
fn ran_numbers(answer: Result<Ran, Refusal>) -> RanResult
    ensures { result ≡ ran_numbers (run_answer answer) }
{
    match answer {
        Ok(ran) => RanResult {
            refusal: 0,
            count: ran.count as u64,
            lost: LostResult::from(ran.lost),
        },
        Err(refusal) => RanResult {
            refusal: u8::from(refusal) as u64,
            count: 0,
            lost: LostResult::default(),
        },
    }
}

// Runs one cycle for each input byte and writes the lines of each.
#[unsafe(no_mangle)]
pub extern "C" fn pl022_run(bytes: &mut [u8], input: &[u8], output: &mut [u8]) -> RanResult
    ensures { RunResult Never bytes.old input.now output.old result bytes.new output.new }
{
    ran_numbers(device_record::calls::run_call(Stop::Never, bytes, input, output))
}

// Runs until a cycle ends with BSY 0 or the input ends.
#[unsafe(no_mangle)]
pub extern "C" fn pl022_run_to_idle(bytes: &mut [u8], input: &[u8], output: &mut [u8]) -> RanResult
    ensures { RunResult NotBusy bytes.old input.now output.old result bytes.new output.new }
{
    ran_numbers(device_record::calls::run_call(Stop::NotBusy, bytes, input, output))
}

// Runs two wired devices for a number of cycles.
#[unsafe(no_mangle)]
pub extern "C" fn pl022_pair_run(first: &mut [u8], second: &mut [u8], cycles: u64) -> PairRanResult
    ensures { PairResult first.old second.old cycles result first.new second.new }
{
    let answer = device_record::calls::pair_call(first, second, cycles);
    match answer {
        Ok(lost) => PairRanResult {
            refusal: 0,
            first: LostResult::from(lost.first),
            second: LostResult::from(lost.second),
        },
        Err(refusal) => PairRanResult {
            refusal: u8::from(refusal) as u64,
            first: LostResult::default(),
            second: LostResult::default(),
        },
    }
}

// Writes a recording as text; each place starts a line.
#[unsafe(no_mangle)]
pub extern "C" fn pl022_write_text(lines: &[u8], places: &[u32], text: &mut [u8]) -> CountResult
    ensures { WriteTextResult lines.now places.now text.old result text.new }
{
    match text::write::write_text(lines, places, text) {
        Ok(count) => CountResult {
            refusal: 0,
            count: count as u64,
        },
        Err(refusal) => CountResult {
            refusal: u8::from(refusal) as u64,
            count: 0,
        },
    }
}

// Reads a text as cycles and line starts.
#[unsafe(no_mangle)]
pub extern "C" fn pl022_read_text(text: &[u8], lines: &mut [u8], starts: &mut [u32]) -> TextResult
    ensures { ReadTextResult text.now lines.old starts.old result lines.new starts.new }
{
    match text::read::read_text(text, lines, starts) {
        Ok(found) => TextResult {
            refusal: 0,
            cycles: found.cycles as u64,
            starts: found.starts as u64,
        },
        Err(refusal) => TextResult {
            refusal: u8::from(refusal) as u64,
            cycles: 0,
            starts: 0,
        },
    }
}

// Judges a recording as that of a master with these settings; the words go to eight places.
#[unsafe(no_mangle)]
pub extern "C" fn pl022_judge(
    cr0: u32,
    cpsr: u32,
    recording: &[u8],
    words: &mut [u16; 8],
) -> CountResult
    ensures { JudgeResult cr0 cpsr recording.now words.old result words.new }
{
    match judge::judge::judge(cr0, cpsr, recording, words) {
        Ok(count) => CountResult {
            refusal: 0,
            count: count as u64,
        },
        Err(rejection) => CountResult {
            refusal: u8::from(rejection) as u64,
            count: rejection.leading() as u64,
        },
    }
}

// The difference of two recordings.
#[unsafe(no_mangle)]
pub extern "C" fn pl022_difference<'a>(first: &'a [u8], second: &'a [u8]) -> PartResult
    ensures { DifferenceResult first.now second.now result }
{
    let part = judge::shared::difference(first, second);
    let length = part.len();
    if first.len() < second.len() {
        return PartResult {
            second: 1,
            start: (second.len() - length) as u64,
            length: length as u64,
        };
    }
    PartResult {
        second: 0,
        start: (first.len() - length) as u64,
        length: length as u64,
    }
}
