// Ports driven by a wave, a digit of pins for each cycle: the recording, and three reads of DR.
use crate::{Edition, Recorded, Setup, put_cycle, put_received};
use std::io;
use std::io::Write;

// A port of the first edition, at h = 1.
#[derive(Clone, Copy)]
pub(crate) struct Driven<'a> {
    name: &'a str,
    cr0: u32,
    cr1: u32,
    words: &'a [u32],
    wave: &'a str,
}

impl Recorded for Driven<'_> {
    fn put<W: Write>(&self, out: &mut W) -> io::Result<()> {
        let mut d = Setup {
            edition: Edition::First,
            cr0: self.cr0,
            cpsr: 2,
            words: self.words,
            cr1: self.cr1,
        }
        .device();
        write!(out, "{}: ", self.name)?;
        for digit in self.wave.bytes() {
            put_cycle(out, &mut d, digit)?;
        }
        writeln!(out)?;
        put_received(out, &self.name, &mut d)
    }
}

// Masters that receive: their own TXD in loopback, RXD otherwise.
const RECEIVERS: &[Driven<'static>] = &[
    Driven {
        name: "loopback SPH 0",
        cr0: 0x0003,
        cr1: 0x3,
        words: &[0xA, 0x5],
        wave: "000000000000000000000000",
    },
    Driven {
        name: "loopback TI",
        cr0: 0x0013,
        cr1: 0x3,
        words: &[0xA, 0x5],
        wave: "44444444444444444444",
    },
    Driven {
        name: "loopback Microwire",
        cr0: 0x0023,
        cr1: 0x3,
        words: &[0xA5],
        wave: "44444444444444444444444444444",
    },
    Driven {
        name: "master SPH 1 with RXD",
        cr0: 0x0083,
        cr1: 0x2,
        words: &[0x0, 0xF],
        wave: "00004444000044444444",
    },
];

// Slaves, driven by a master's recorded lines.
const SLAVES: &[Driven<'static>] = &[
    Driven {
        name: "slave SPH 0",
        cr0: 0x0003,
        cr1: 0x6,
        words: &[0x9, 0x6],
        wave: "22220044550011445500110022220000114455001144554422222222",
    },
    Driven {
        name: "slave SPH 0 SPO 1",
        cr0: 0x0043,
        cr1: 0x6,
        words: &[0x9],
        wave: "33331155441100554411001133331155445544110011001133333333",
    },
    Driven {
        name: "slave SPH 1",
        cr0: 0x0083,
        cr1: 0x6,
        words: &[0x9, 0x6],
        wave: "222200554411005544110011005544110055444422222222",
    },
    Driven {
        name: "slave SPH 1 SOD",
        cr0: 0x0083,
        cr1: 0xE,
        words: &[0x9],
        wave: "22220011001100554455444422222222",
    },
    Driven {
        name: "slave TI",
        cr0: 0x0013,
        cr1: 0x6,
        words: &[0x9, 0x6],
        wave: "00003322554411005544332211005544110055440000",
    },
    Driven {
        name: "slave TI part word",
        cr0: 0x0013,
        cr1: 0x6,
        words: &[0x9, 0x6],
        wave: "0000332255441100332211005544554455440000",
    },
    Driven {
        name: "slave SPH 0 part word",
        cr0: 0x0003,
        cr1: 0x6,
        words: &[0x9, 0x6],
        wave: "2222004455001122220000114455445544554422222222",
    },
];

// Microwire slaves, one cycle per slot: one frame; two during one FSS LOW, and the same without a second word; FSS HIGH in the
// data bits; 16 bits.
const MICROWIRE_SLAVES: &[Driven<'static>] = &[
    Driven {
        name: "slave Microwire",
        cr0: 0x0023,
        cr1: 0x6,
        words: &[0x9],
        wave: "2222014501454501450101010101010222222",
    },
    Driven {
        name: "slave Microwire two frames",
        cr0: 0x0023,
        cr1: 0x6,
        words: &[0x9, 0x6],
        wave: "222201450145450145010101010101450145010145014501010101010222222",
    },
    Driven {
        name: "slave Microwire no second word",
        cr0: 0x0023,
        cr1: 0x6,
        words: &[0x9],
        wave: "222201450145450145010101010101450145010145014501010101010222222",
    },
    Driven {
        name: "slave Microwire part frame",
        cr0: 0x0023,
        cr1: 0x6,
        words: &[0x9, 0x6],
        wave: "2222014501454501450101010122450145010145014501010101010222222",
    },
    Driven {
        name: "slave Microwire 16 bits",
        cr0: 0x002F,
        cr1: 0x6,
        words: &[0xBEEF],
        wave: "2222454501010101454501010101010101010101010101010101010222222",
    },
];

// FSS falls with the first rise of CLK, and SOD is set; loopback; FSS HIGH in the control bits, and in the last data bit;
// CLK HIGH when FSS falls; FSS LOW from the start.
const MICROWIRE_ODD_PINS: &[Driven<'static>] = &[
    Driven {
        name: "slave Microwire SOD, FSS with CLK",
        cr0: 0x00E3,
        cr1: 0xE,
        words: &[0x9],
        wave: "222250145010145014501010101010222222",
    },
    Driven {
        name: "slave Microwire loopback",
        cr0: 0x0023,
        cr1: 0x7,
        words: &[0x9],
        wave: "2222014501454501450101010101010222222",
    },
    Driven {
        name: "slave Microwire part control byte",
        cr0: 0x0023,
        cr1: 0x6,
        words: &[0x9],
        wave: "22220145014522450145010145014501010101010222222",
    },
    Driven {
        name: "slave Microwire FSS HIGH in the last bit",
        cr0: 0x0023,
        cr1: 0x6,
        words: &[0x9],
        wave: "2222014501454501450101010101011133222",
    },
    Driven {
        name: "slave Microwire CLK HIGH at FSS fall",
        cr0: 0x0023,
        cr1: 0x6,
        words: &[0x9],
        wave: "223310145014545014501010101010102222",
    },
    Driven {
        name: "slave Microwire not selected",
        cr0: 0x0023,
        cr1: 0x6,
        words: &[0x9],
        wave: "0145014545014501010101010102222",
    },
];

// All of these recordings, in order.
pub(crate) const ALL: &[&[Driven<'static>]] = &[
    RECEIVERS,
    SLAVES,
    MICROWIRE_SLAVES,
    MICROWIRE_ODD_PINS,
];
