// The verdict on a recording.
ghost use Rattle.std.specs.Prelude.{◌≡◌, false, []};
ghost use Rattle.serial.specs.Cycle.{device_of};
ghost use Rattle.serial.specs.Preloaded.{enabled_with};
ghost use Rattle.judge.specs.Judge.{verdict_of, rejected, verdict_numbers, Judged};
ghost use Rattle.judge.specs.Follow.{Followable, Followed};

use crate::place::Table;
use crate::shared;
use registers::settings::Settings;
use serial::Device;

// The longest recording that is judged.
pub const MOST_CYCLES: usize = 65536;

// Offsets of the registers that are written, repeated here: a judge knows a device by its writes, not by its register decoder.
const CR0: u32 = 0x00;

const CR1: u32 = 0x04;

const CPSR: u32 = 0x10;

// CR1 of an enabled master: SSE.
const ENABLED: u32 = 2;

// Why a recording is not accepted.
#[derive(Clone, Copy, Debug, PartialEq, Eq)]
pub enum Rejection {
    // refused before it is judged: the settings cannot be enabled as a master
    NotPermitted,
    // no list of words gives it: the number of leading cycles
    NoList(usize),
    // refused before it is judged: it is too long
    TooLong,
}

// Its number; a refused register write has the same 6.
impl From<Rejection> for u8 {
    ghost from_gives = { λ r n. n ≡ (verdict_numbers (rejected r)).refusal };

    fn from(rejection: Rejection) -> u8 {
        match rejection {
            Rejection::NotPermitted => 6,
            Rejection::NoList(_) => 21,
            Rejection::TooLong => 22,
        }
    }
}

impl Rejection {
    // The number of leading cycles; 0 of a recording that is not judged. Not an Option: C gets the 0.
    pub fn leading(self) -> usize
        ensures { result ≡ (verdict_numbers (rejected self)).count }
    {
        match self {
            Rejection::NoList(leading) => leading,
            Rejection::NotPermitted | Rejection::TooLong => 0,
        }
    }
}

// A device after reset, with CR0 and CPSR written, then enabled as a master.
fn enabled_with(cr0: u32, cpsr: u32) -> Device
    ensures { device_of result ≡ enabled_with false cr0 cpsr [] }
{
    let mut device = Device::reset(false);
    // What is refused shows in SSE, which is clear then.
    let _ = device.write(CR0, cr0);
    let _ = device.write(CPSR, cpsr);
    let _ = device.write(CR1, ENABLED);
    device
}

// Goes through a recording slot by slot, and puts its words into eight places. It answers how many there are.
// Places with a count, not a vector: the rule of no heap, and C lends eight places to `judge`.
fn follow(s: Settings, recording: &[u8], found: &mut [u16; 8]) -> Result<usize, Rejection>
    requires { Followable s found.old }
    ensures { Followed s recording.now (verdict_of result) found.new }
{
    let t = Table::of(s);
    let h = s.divisor.0 as usize;
    let mut p = t.word_start(t.leads, 0);
    let mut leading = 0;
    for slot in recording.chunks(h) {
        let x = slot[0];
        let Some(next) = t.step(p, x) else {
            return Err(Rejection::NoList(leading));
        };
        let run = shared::same_run(slot, x);
        if run < h {
            return Err(Rejection::NoList(leading + run));
        }
        let n = p.count as usize;
        found[n] = p.word;
        p = next;
        leading += h;
    }
    if t.over(p) {
        let n = p.count as usize;
        found[n] = p.word;
        return Ok(n + 1);
    }
    Err(Rejection::NoList(leading))
}

// Judges a recording as that of a PL022 master with these settings. It is accepted if some list of one to eight words gives
// it; the words then go to the eight places, and the answer is how many there are.
pub fn judge(
    cr0: u32,
    cpsr: u32,
    recording: &[u8],
    words: &mut [u16; 8],
) -> Result<usize, Rejection>
    ensures { Judged cr0 cpsr recording.now words.old (verdict_of result) words.new }
{
    let device = enabled_with(cr0, cpsr);
    if !device.registers.enabled() {
        return Err(Rejection::NotPermitted);
    }
    if MOST_CYCLES < recording.len() {
        return Err(Rejection::TooLong);
    }
    let s = device.registers.settings();
    let mut found = [0; 8];
    let count = follow(s, recording, &mut found)?;
    *words = found;
    Ok(count)
}
