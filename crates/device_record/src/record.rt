// The device record: a device as 128 bytes, and bytes as a device.
ghost use Rattle.std.specs.Prelude.{◌≡◌, ◌+◌, ◌*◌, ◌≤◌, length, get_or, is_some, IfSome};
ghost use Rattle.serial.specs.Cycle.{device_of};
ghost use Rattle.device_record.specs.Record.{record_length, byte_at, WordOf, word_at, long_at, flag_at, words_at, fields_at, engine_at, history_at, decode, state_bytes, word_bytes, PutAt, encode, sound_bytes};

use frames::engine::{Engine, Shift};
use frames::lines::{Lines, Pins};
use registers::fields::Fields;
use registers::time::{Cycles, Slots};
use registers::{Control, Masks, Registers, Timeout};
use serial::{Device, History};
use std::array;

// How many bytes a record has.
pub const RECORD_LENGTH: usize = 128;

// A byte of the record; 0 after the end, no Option: `decode` takes any slice. Bytes and place are no struct: each field is
// read once, or written once (`put_words`), at a place of its own.
fn byte_at(bytes: &[u8], i: usize) -> u8
    ensures { result ≡ byte_at bytes.now i }
{
    bytes.get(i).copied().unwrap_or(0)
}

// A word of two bytes, the low one first.
fn word_of(lo: u8, hi: u8) -> u16
    ensures { WordOf lo hi result }
{
    u16::from_le_bytes([lo, hi])
}

// A place is a u8 here, so that those after it are places too.
fn word_at(bytes: &[u8], place: u8) -> u16
    ensures { result ≡ word_at bytes.now place }
{
    let i = usize::from(place);
    word_of(byte_at(bytes, i), byte_at(bytes, i + 1))
}

fn long_at(bytes: &[u8], place: u8) -> u32
    ensures { result ≡ long_at bytes.now place }
{
    let i = usize::from(place);
    u32::from_le_bytes([
        byte_at(bytes, i),
        byte_at(bytes, i + 1),
        byte_at(bytes, i + 2),
        byte_at(bytes, i + 3),
    ])
}

fn flag_at(bytes: &[u8], i: usize) -> bool
    ensures { result ≡ flag_at bytes.now i }
{
    byte_at(bytes, i) == 1
}

// Eight words from a byte on.
fn words_at(bytes: &[u8], place: u8) -> [u16; 8]
    ensures { result ≡ words_at bytes.now place }
{
    array::from_fn(|k| {
        let i = usize::from(place) + 2 * k;
        word_of(byte_at(bytes, i), byte_at(bytes, i + 1))
    })
}

fn fields_at(bytes: &[u8]) -> Fields
    ensures { result ≡ fields_at bytes.now }
{
    let control = Control {
        cr0: word_at(bytes, 0),
        cr1: byte_at(bytes, 2) as u16,
        cpsr: byte_at(bytes, 3),
        edition2: flag_at(bytes, 30),
    };
    let masks = Masks {
        imsc: byte_at(bytes, 4),
        dmacr: byte_at(bytes, 5),
    };
    let timeout = Timeout {
        rt: flag_at(bytes, 7),
        count: Cycles(long_at(bytes, 8)),
    };
    Fields {
        control,
        masks,
        timeout,
        ror: flag_at(bytes, 6),
        tx: words_at(bytes, 32),
        waiting: byte_at(bytes, 28),
        rx: words_at(bytes, 48),
        held: byte_at(bytes, 29),
    }
}

fn engine_at(bytes: &[u8]) -> Engine
    ensures { result ≡ engine_at bytes.now }
{
    let shift = Shift {
        captured: byte_at(bytes, 15),
        level: flag_at(bytes, 17),
        sending: word_at(bytes, 20),
        receiving: word_at(bytes, 22),
    };
    Engine {
        slot: Slots(byte_at(bytes, 16) as u16),
        elapsed: Cycles(word_at(bytes, 18) as u32),
        frame: flag_at(bytes, 12),
        selected: flag_at(bytes, 13),
        mark: flag_at(bytes, 14),
        shift,
    }
}

fn history_at(bytes: &[u8]) -> History
    ensures { result ≡ history_at bytes.now }
{
    History {
        newest: Pins::from(byte_at(bytes, 24)),
        middle: Pins::from(byte_at(bytes, 25)),
        oldest: Pins::from(byte_at(bytes, 26)),
    }
}

// The device that bytes encode; a byte after the end counts as 0. Not a From: neither type is of this crate.
pub fn decode(bytes: &[u8]) -> Device
    ensures { device_of result ≡ decode bytes.now }
{
    let fields = fields_at(bytes);
    let registers = Registers::from(fields);
    let engine = engine_at(bytes);
    let pins = history_at(bytes);
    let lines = Lines::from(byte_at(bytes, 27));
    Device {
        registers,
        engine,
        pins,
        lines,
    }
}

// Bytes 0 to 31, as words.
fn state_words(f: Fields, d: Device) -> [u16; 16]
    ensures { word_bytes result ≡ state_bytes f d.engine d.pins d.lines }
{
    let n = f.timeout.count.0;
    [
        f.control.cr0,
        word_of((f.control.cr1 % 256) as u8, f.control.cpsr),
        word_of(f.masks.imsc, f.masks.dmacr),
        word_of(f.ror as u8, f.timeout.rt as u8),
        (n % 0x10000) as u16,
        (n / 0x10000) as u16,
        word_of(d.engine.frame as u8, d.engine.selected as u8),
        word_of(d.engine.mark as u8, d.engine.shift.captured),
        word_of((d.engine.slot.0 % 256) as u8, d.engine.shift.level as u8),
        (d.engine.elapsed.0 % 0x10000) as u16,
        d.engine.shift.sending,
        d.engine.shift.receiving,
        word_of(u8::from(d.pins.newest), u8::from(d.pins.middle)),
        word_of(u8::from(d.pins.oldest), u8::from(d.lines)),
        word_of(f.waiting, f.held),
        word_of(f.control.edition2 as u8, 0),
    ]
}

// Writes words into a record from byte `at` on.
fn put_words(bytes: &mut [u8], at: usize, words: &[u16])
    requires { at + 2 * length words.now ≤ length bytes.old }
    ensures { PutAt bytes.old at (word_bytes words.now) bytes.new }
{
    // By index: each word fills two bytes.
    for (i, word) in words.iter().enumerate() {
        let [low, high] = word.to_le_bytes();
        bytes[at + 2 * i] = low;
        bytes[at + 2 * i + 1] = high;
    }
}

// Writes a device into a record; bytes of another length stay. Not a From: it fills lent bytes.
pub fn encode(d: Device, bytes: &mut [u8])
    ensures { bytes.new ≡ encode (device_of d) bytes.old }
{
    if bytes.len() == RECORD_LENGTH {
        let fields = Fields::from(d.registers);
        let state = state_words(fields, d);
        let spare = [0u16; 32];
        put_words(bytes, 0, &state);
        put_words(bytes, 32, &fields.tx);
        put_words(bytes, 48, &fields.rx);
        put_words(bytes, 64, &spare);
    }
}

// The device of sound bytes.
pub(crate) fn decode_sound(bytes: &[u8]) -> Option<Device>
    ensures sound { is_some result ≡ sound_bytes bytes.now }
    ensures device { IfSome result (λ d. device_of d ≡ decode bytes.now) }
{
    let d = decode(bytes);
    let mut again = [0u8; RECORD_LENGTH];
    encode(d, &mut again);
    let kept = again.as_slice() == bytes;
    let good = d.sound();
    (kept & good).then_some(d)
}

// Whether bytes are a sound record.
pub fn sound_bytes(bytes: &[u8]) -> bool
    ensures { result ≡ sound_bytes bytes.now }
{
    decode_sound(bytes).is_some()
}
