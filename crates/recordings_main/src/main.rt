// Prints recordings of the proved code, one line each: a name, then one digit per cycle (lost words: a point or the word).
// Expected: P1 to P5, Microwire slaves, stopped ports, lost words by hand from docs/MODEL.md; the rest by compare/'s program.
#![tactic(auto)]

// Masters that only send.
mod masters;
// Ports driven by a wave.
mod driven;
// Ports stopped in the middle of a frame.
mod stopped;
// Words lost to overrun.
mod lost;

use frames::lines::Pins;
use registers::fields::Fields;
use serial::Device;
use std::io::{BufWriter, Write};
use std::{fmt, io};

const CR0: u32 = 0x00;

const CR1: u32 = 0x04;

const DR: u32 = 0x08;

const CPSR: u32 = 0x10;

// In CR1; alone it is an enabled master.
const SSE: u32 = 0x2;

// The edition that a port follows. device_record has such a type, but this program does not see it.
#[derive(Clone, Copy, Debug, PartialEq, Eq)]
enum Edition {
    First = 1,
    Second = 2,
}

// Calls on a device ----------------------------------------------------------------------------------------------------

// Functions, since a device is of another crate. A refused write changes nothing.
fn write(d: &mut Device, offset: u32, value: u32) {
    let _ = d.write(offset, value);
}

// The oldest received word is taken out.
fn read(d: &mut Device) -> Option<u16> {
    d.read(DR).ok()
}

// One cycle: the word that it loses.
fn cycle(d: &mut Device, pins: u8) -> Option<u16> {
    d.cycle(Pins::from(pins))
}

// How many words are left to send.
fn waiting(d: &Device) -> u8 {
    Fields::from(d.registers).waiting
}

// The words to send, written to DR.
fn load(d: &mut Device, words: &[u32]) {
    for word in words {
        write(d, DR, *word);
    }
}

// How a port is set up, with its words to send.
#[derive(Clone, Copy)]
struct Setup<'a> {
    edition: Edition,
    cr0: u32,
    cpsr: u32,
    words: &'a [u32],
    cr1: u32,
}

impl Setup<'_> {
    // A device from reset: CR0, CPSR, the words to send, CR1.
    fn device(self) -> Device {
        let mut d = Device::reset(self.edition == Edition::Second);
        write(&mut d, CR0, self.cr0);
        write(&mut d, CPSR, self.cpsr);
        load(&mut d, self.words);
        write(&mut d, CR1, self.cr1);
        d
    }
}

// Printing -------------------------------------------------------------------------------------------------------------

// A cycle, with its lines printed; a word that it loses is not shown. The pins are a digit in ASCII: 48 is a multiple of 8.
fn put_cycle<W: Write>(out: &mut W, d: &mut Device, digit: u8) -> io::Result<()> {
    let _ = cycle(d, digit % 8);
    write!(out, "{:X}", u8::from(d.lines))
}

// What a read of DR gave.
#[derive(Clone, Copy, Debug)]
struct Received(Option<u16>);

impl fmt::Display for Received {
    fn fmt<W: fmt::Write>(&self, f: &mut fmt::Formatter<W>) -> fmt::Result {
        match self.0 {
            Some(word) => write!(f, "{word:04X}"),
            None => write!(f, "none"),
        }
    }
}

// Three reads of DR.
fn put_received<W: Write, L: fmt::Display>(
    out: &mut W,
    label: &L,
    d: &mut Device,
) -> io::Result<()> {
    let first = Received(read(d));
    let second = Received(read(d));
    let third = Received(read(d));
    writeln!(out, "{label} received: {first} {second} {third}")
}

// A port that prints its recordings.
trait Recorded {
    fn put<W: Write>(&self, out: &mut W) -> io::Result<()>;
}

// The recordings of all ports of these tables.
fn put_all<W: Write, R: Recorded>(out: &mut W, tables: &[&[R]]) -> io::Result<()> {
    for table in tables {
        for port in *table {
            port.put(out)?;
        }
    }
    Ok(())
}

fn main(rt: HostRuntime) -> io::Result<()> {
    let mut out = BufWriter::new(rt.alloc(), io::writer(&rt))?;
    put_all(&mut out, masters::ALL)?;
    put_all(&mut out, driven::ALL)?;
    put_all(&mut out, stopped::ALL)?;
    put_all(&mut out, &[lost::ALL])?;
    out.flush()
}
