// Runs: one cycle for each input byte, up to a stopping rule.
ghost use Rattle.std.specs.Prelude.{◌≡◌};
ghost use Rattle.serial.specs.Cycle.{device_of};
ghost use Rattle.serial.specs.Busy.{busy_device};
ghost use Rattle.device_record.specs.Run.{inputs_fit, stops_on, RunUntil};

use frames::lines::Pins;
use serial::Device;

// Those above name what was lost by this path.
pub use serial::lost::Losses;

// The offset of SR, and the place of BSY in it; registers keeps no constants for offsets.
const STATUS: u32 = 0x0C;

const BUSY: u32 = 4;

// An input byte is at most this.
const HIGHEST_INPUT: u8 = 7;

// When a run stops before its input ends. Not a closure: `RunCall` and the theorems about runs name these two rules, and nothing
// else calls `run_until`.
#[derive(Clone, Copy, Debug, PartialEq, Eq)]
pub enum Stop {
    // never
    Never,
    // when BSY is 0
    NotBusy,
}

// What a run answers: the cycles run, and what was lost in them.
#[derive(Clone, Copy)]
pub struct Ran {
    pub count: usize,
    pub lost: Losses,
}

// Whether every input byte is at most 7. Not one function with text's `cycles_fit`: neither crate sees the other.
pub fn inputs_fit(input: &[u8]) -> bool
    ensures { result ≡ inputs_fit input.now }
{
    // Not `all`: with no early exit the loop takes many bytes at once.
    let bytes = input.iter();
    bytes.fold(true, |fit, byte| fit & (*byte <= HIGHEST_INPUT))
}

// BSY, as a read of SR gives it. A function, since a device is of another crate.
pub fn busy_device(mut d: Device) -> bool
    ensures { result ≡ busy_device (device_of d) }
{
    let Ok(status) = d.read(STATUS) else {
        return false;
    };
    registers::bits::bit_at(status as u32, BUSY)
}

fn stops_on(stop: Stop, d: Device) -> bool
    ensures { result ≡ stops_on stop (device_of d) }
{
    match stop {
        Stop::Never => false,
        Stop::NotBusy => !busy_device(d),
    }
}

// Runs cycles until the rule holds or the input ends; output bytes after them stay. If the lengths differ, nothing is run.
pub fn run_until(stop: Stop, device: &mut Device, input: &[u8], output: &mut [u8]) -> Ran
    ensures { RunUntil (stops_on stop) (device_of device.old) input.now output.old result (device_of device.new) output.new }
{
    let mut lost = Losses::none();
    if input.len() != output.len() {
        return Ran { count: 0, lost };
    }
    // Output by index: of what is written through a `zip` a proof learns nothing.
    for (i, byte) in input.iter().enumerate() {
        if stops_on(stop, *device) {
            return Ran { count: i, lost };
        }
        lost.note(device.cycle(Pins::from(*byte)));
        output[i] = u8::from(device.lines);
    }
    Ran {
        count: input.len(),
        lost,
    }
}
