// The calls on records: what each answers, and what it leaves in the caller's bytes.
ghost use Rattle.std.specs.Prelude.{◌≡◌, ◌≢◌, length, MatchResult};
ghost use Rattle.serial.specs.Cycle.{device_of};
ghost use Rattle.device_record.specs.Record.{record_length, decode};
ghost use Rattle.device_record.specs.Run.{run_refusal};
ghost use Rattle.device_record.specs.Refusals.{refusal_number, answer_of, Checks};
ghost use Rattle.device_record.specs.Calls.{edition_of, record_refusal, run_answer, pair_answer, ResetCall, ReadCall, WriteCall, RunCall, PairCall};

use crate::record::RECORD_LENGTH;
use crate::refusals::Refusal;
use crate::run::{Ran, Stop};
use serial::Device;
use serial::pair::{PairLosses, Wired};

// The editions of the device.
#[derive(Clone, Copy, Debug, PartialEq, Eq)]
pub enum Edition {
    First = 1,
    Second = 2,
}

impl TryFrom<u32> for Edition {
    type Error = Refusal;

    ghost try_from_gives = { λ number edition. edition ≡ edition_of number };

    fn try_from(number: u32) -> Result<Edition, Refusal> {
        match number {
            1 => Ok(Edition::First),
            2 => Ok(Edition::Second),
            _ => Err(Refusal::NoEdition),
        }
    }
}

fn check_length(bytes: &[u8]) -> Result<(), Refusal>
    ensures { MatchResult result (λ _. length bytes.now ≡ record_length) (λ e. (e ≡ Refusal.WrongLength) × (length bytes.now ≢ record_length)) }
{
    if bytes.len() == RECORD_LENGTH {
        Ok(())
    } else {
        Err(Refusal::WrongLength)
    }
}

// The device of a sound record.
fn device_in(bytes: &[u8]) -> Result<Device, Refusal>
    ensures { Checks (record_refusal bytes.now) (λ d. device_of d ≡ decode bytes.now) result }
{
    check_length(bytes)?;
    crate::record::decode_sound(bytes).ok_or(Refusal::Unsound)
}

// The device that a run begins with.
fn device_to_run(bytes: &[u8], input: &[u8], output: &[u8]) -> Result<Device, Refusal>
    ensures { Checks (run_refusal bytes.now input.now output.now) (λ d. device_of d ≡ decode bytes.now) result }
{
    check_length(bytes)?;
    if input.len() != output.len() {
        return Err(Refusal::LinesDiffer);
    }
    if !crate::run::inputs_fit(input) {
        return Err(Refusal::BadInput);
    }
    device_in(bytes)
}

// Makes the record a device after reset, of the given edition, whatever it held.
pub fn reset_call(bytes: &mut [u8], edition: u32) -> Result<(), Refusal>
    ensures { ResetCall bytes.old edition (refusal_number result) bytes.new }
{
    check_length(bytes)?;
    let second = Edition::try_from(edition)? == Edition::Second;
    crate::record::encode(Device::reset(second), bytes);
    Ok(())
}

// Reads a register.
pub fn read_call(bytes: &mut [u8], offset: u32) -> Result<u16, Refusal>
    ensures { ReadCall bytes.old offset (answer_of result) bytes.new }
{
    let mut device = device_in(bytes)?;
    let word = device.read(offset)?;
    crate::record::encode(device, bytes);
    Ok(word)
}

// Writes a register.
pub fn write_call(bytes: &mut [u8], offset: u32, value: u32) -> Result<(), Refusal>
    ensures { WriteCall bytes.old offset value (refusal_number result) bytes.new }
{
    let mut device = device_in(bytes)?;
    device.write(offset, value)?;
    crate::record::encode(device, bytes);
    Ok(())
}

// Runs cycles until the stopping rule holds, and counts them and the words lost in them.
pub fn run_call(
    stop: Stop,
    bytes: &mut [u8],
    input: &[u8],
    output: &mut [u8],
) -> Result<Ran, Refusal>
    ensures { RunCall stop bytes.old input.now output.old (run_answer result) bytes.new output.new }
{
    let mut device = device_to_run(bytes, input, output)?;
    let ran = crate::run::run_until(stop, &mut device, input, output);
    crate::record::encode(device, bytes);
    Ok(ran)
}

// Runs two wired devices for a number of cycles, and counts the words that each lost in them.
pub fn pair_call(first: &mut [u8], second: &mut [u8], cycles: u64) -> Result<PairLosses, Refusal>
    ensures { PairCall first.old second.old cycles (pair_answer result) first.new second.new }
{
    check_length(first)?;
    check_length(second)?;
    // Built here: a pair in a Result is so large that it is copied by memcpy, and the archive is to need no name from outside.
    let mut pair = Wired {
        first: device_in(first)?,
        second: device_in(second)?,
    };
    let lost = pair.run(cycles);
    crate::record::encode(pair.first, first);
    crate::record::encode(pair.second, second);
    Ok(lost)
}
