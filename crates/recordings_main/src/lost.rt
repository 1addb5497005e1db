// Words lost to overrun, cycle by cycle: masters in loopback that nobody reads.
use crate::{Edition, Recorded, Setup};
use serial::Device;
use std::io;
use std::io::Write;

// CR1 of an enabled master in loopback: SSE, LBM.
const LOOPBACK: u32 = 0x3;

// A master of the first edition, at h = 1 and b = 4, with the cycles of eight words and of two.
#[derive(Clone, Copy)]
pub(crate) struct Overrun<'a> {
    name: &'a str,
    cr0: u32,
    eight: u16,
    two: u16,
}

// In Microwire a master in loopback receives zeros.
pub(crate) const ALL: &[Overrun<'static>] = &[
    Overrun {
        name: "SPH 0",
        cr0: 0x0003,
        eight: 96,
        two: 24,
    },
    Overrun {
        name: "SPH 1",
        cr0: 0x0083,
        eight: 68,
        two: 20,
    },
    Overrun {
        name: "TI",
        cr0: 0x0013,
        eight: 66,
        two: 18,
    },
    Overrun {
        name: "Microwire",
        cr0: 0x0023,
        eight: 211,
        two: 55,
    },
];

// Cycles, each with the word that it loses, or a point.
fn put_losses<W: Write>(out: &mut W, d: &mut Device, cycles: u16) -> io::Result<()> {
    for _ in 0..cycles {
        match crate::cycle(d, 0) {
            Some(word) => write!(out, "[{word:04X}]")?,
            None => write!(out, ".")?,
        }
    }
    Ok(())
}

impl Recorded for Overrun<'_> {
    // Eight words fill the receive queue, then two more are sent.
    fn put<W: Write>(&self, out: &mut W) -> io::Result<()> {
        let mut d = Setup {
            edition: Edition::First,
            cr0: self.cr0,
            cpsr: 2,
            words: &[1, 2, 3, 4, 5, 6, 7, 8],
            cr1: LOOPBACK,
        }
        .device();
        write!(out, "{} lost: ", self.name)?;
        put_losses(out, &mut d, self.eight)?;
        write!(out, " ")?;
        crate::load(&mut d, &[0xFF9, 0xA]);
        put_losses(out, &mut d, self.two)?;
        writeln!(out)
    }
}
