// Masters that only send, from enabling on, with their pins LOW.
use crate::{Edition, Recorded, SSE, Setup, put_cycle};
use std::io;
use std::io::Write;

// A master of the first edition, recorded for a number of cycles.
#[derive(Clone, Copy)]
pub(crate) struct Master<'a> {
    name: &'a str,
    cr0: u32,
    cpsr: u32,
    words: &'a [u32],
    cycles: u16,
}

impl Recorded for Master<'_> {
    fn put<W: Write>(&self, out: &mut W) -> io::Result<()> {
        let mut d = Setup {
            edition: Edition::First,
            cr0: self.cr0,
            cpsr: self.cpsr,
            words: self.words,
            cr1: SSE,
        }
        .device();
        write!(out, "{}: ", self.name)?;
        for _ in 0..self.cycles {
            put_cycle(out, &mut d, b'0')?;
        }
        writeln!(out)
    }
}

// P1 to P5, P1 and P2 with SPO 1 too.
const PAPER: &[Master<'static>] = &[
    Master {
        name: "P1",
        cr0: 0x0003,
        cpsr: 2,
        words: &[0xA],
        cycles: 12,
    },
    Master {
        name: "P1 SPO 1",
        cr0: 0x0043,
        cpsr: 2,
        words: &[0xA],
        cycles: 12,
    },
    Master {
        name: "P2",
        cr0: 0x0083,
        cpsr: 2,
        words: &[0xA],
        cycles: 12,
    },
    Master {
        name: "P2 SPO 1",
        cr0: 0x00C3,
        cpsr: 2,
        words: &[0xA],
        cycles: 12,
    },
    Master {
        name: "P3",
        cr0: 0x0013,
        cpsr: 2,
        words: &[0xA],
        cycles: 10,
    },
    Master {
        name: "P4",
        cr0: 0x0013,
        cpsr: 2,
        words: &[0xA, 0x5],
        cycles: 18,
    },
    Master {
        name: "P5",
        cr0: 0x0023,
        cpsr: 2,
        words: &[0xA5],
        cycles: 29,
    },
];

// SPH 0: two and three words, sizes 4 to 16, slots of one and two cycles.
const SPH0: &[Master<'static>] = &[
    Master {
        name: "SPH 0, 4 bits, 2 words",
        cr0: 0x0003,
        cpsr: 2,
        words: &[0x9, 0x6],
        cycles: 24,
    },
    Master {
        name: "SPH 0, 4 bits, 3 words, h 2",
        cr0: 0x0003,
        cpsr: 4,
        words: &[0xFFF3, 0x5, 0xC],
        cycles: 72,
    },
    Master {
        name: "SPH 0, 8 bits, 3 words",
        cr0: 0x0007,
        cpsr: 2,
        words: &[0xA5, 0x3C, 0x81],
        cycles: 60,
    },
    Master {
        name: "SPH 0, 16 bits, 2 words",
        cr0: 0x000F,
        cpsr: 2,
        words: &[0xBEEF, 0x1234],
        cycles: 72,
    },
    Master {
        name: "SPH 0, 6 bits, 1 word, h 2 by SCR",
        cr0: 0x0105,
        cpsr: 2,
        words: &[0x2A],
        cycles: 32,
    },
    Master {
        name: "SPH 0, SPO 1, 5 bits, 2 words",
        cr0: 0x0044,
        cpsr: 2,
        words: &[0x15, 0xA],
        cycles: 28,
    },
];

// SPH 1: two and three words, sizes 4 to 16, slots of one and two cycles.
const SPH1: &[Master<'static>] = &[
    Master {
        name: "SPH 1, 4 bits, 2 words",
        cr0: 0x0083,
        cpsr: 2,
        words: &[0x9, 0x6],
        cycles: 20,
    },
    Master {
        name: "SPH 1, 4 bits, 3 words, h 2",
        cr0: 0x0083,
        cpsr: 4,
        words: &[0xFFF3, 0x5, 0xC],
        cycles: 56,
    },
    Master {
        name: "SPH 1, 8 bits, 3 words",
        cr0: 0x0087,
        cpsr: 2,
        words: &[0xA5, 0x3C, 0x81],
        cycles: 52,
    },
    Master {
        name: "SPH 1, 16 bits, 2 words",
        cr0: 0x008F,
        cpsr: 2,
        words: &[0xBEEF, 0x1234],
        cycles: 68,
    },
    Master {
        name: "SPH 1, 6 bits, 1 word, h 2 by SCR",
        cr0: 0x0185,
        cpsr: 2,
        words: &[0x2A],
        cycles: 32,
    },
    Master {
        name: "SPH 1, SPO 1, 5 bits, 2 words",
        cr0: 0x00C4,
        cpsr: 2,
        words: &[0x15, 0xA],
        cycles: 24,
    },
];

// TI: two and three words, sizes 4 to 16, slots of one and two cycles.
const TI: &[Master<'static>] = &[
    Master {
        name: "TI, 4 bits, 2 words",
        cr0: 0x0013,
        cpsr: 2,
        words: &[0x9, 0x6],
        cycles: 18,
    },
    Master {
        name: "TI, 4 bits, 3 words, h 2",
        cr0: 0x0013,
        cpsr: 4,
        words: &[0xFFF3, 0x5, 0xC],
        cycles: 52,
    },
    Master {
        name: "TI, 8 bits, 3 words",
        cr0: 0x0017,
        cpsr: 2,
        words: &[0xA5, 0x3C, 0x81],
        cycles: 50,
    },
    Master {
        name: "TI, 16 bits, 2 words",
        cr0: 0x001F,
        cpsr: 2,
        words: &[0xBEEF, 0x1234],
        cycles: 66,
    },
    Master {
        name: "TI, 6 bits, 1 word, h 2 by SCR",
        cr0: 0x0115,
        cpsr: 2,
        words: &[0x2A],
        cycles: 28,
    },
];

// Microwire: two and three words, sizes 4 to 16, slots of one and two cycles.
const MICROWIRE: &[Master<'static>] = &[
    Master {
        name: "Microwire, 4 bits, 2 words",
        cr0: 0x0023,
        cpsr: 2,
        words: &[0x9, 0x6],
        cycles: 55,
    },
    Master {
        name: "Microwire, 4 bits, 3 words, h 2",
        cr0: 0x0023,
        cpsr: 4,
        words: &[0xFFF3, 0x5, 0xC],
        cycles: 162,
    },
    Master {
        name: "Microwire, 8 bits, 3 words",
        cr0: 0x0027,
        cpsr: 2,
        words: &[0xA5, 0x3C, 0x81],
        cycles: 105,
    },
    Master {
        name: "Microwire, 16 bits, 2 words",
        cr0: 0x002F,
        cpsr: 2,
        words: &[0xBEEF, 0x1234],
        cycles: 103,
    },
    Master {
        name: "Microwire, 6 bits, 1 word, h 2 by SCR",
        cr0: 0x0125,
        cpsr: 2,
        words: &[0x2A],
        cycles: 66,
    },
];

// All of these recordings, in order.
pub(crate) const ALL: &[&[Master<'static>]] = &[PAPER, SPH0, SPH1, TI, MICROWIRE];
