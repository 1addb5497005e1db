// Ports whose SSE is cleared in a frame, in both editions: the recording, three reads of DR, how many words are left to send.
use crate::{CR1, Edition, Recorded, SSE, Setup, put_cycle, put_received};
use serial::Device;
use std::io::Write;
use std::{fmt, io};

// The editions in which a port is recorded.
const BOTH: &[Edition] = &[Edition::First, Edition::Second];

const SECOND: &[Edition] = &[Edition::Second];

// A port, and the cycles before which its SSE is cleared and set again.
#[derive(Clone, Copy)]
pub(crate) struct Stopped<'a> {
    name: &'a str,
    editions: &'a [Edition],
    cr0: u32,
    cpsr: u32,
    // SSE included
    cr1: u32,
    words: &'a [u32],
    stop: usize,
    // none: SSE stays clear
    start: Option<usize>,
    wave: &'a str,
}

// The name of a recording in one edition.
#[derive(Clone, Copy, Debug)]
struct Label<'a> {
    name: &'a str,
    edition: Edition,
}

impl fmt::Display for Label<'_> {
    fn fmt<W: fmt::Write>(&self, f: &mut fmt::Formatter<W>) -> fmt::Result {
        write!(f, "{}, edition {}", self.name, self.edition as u8)
    }
}

impl Stopped<'_> {
    // CR1 is written before a cycle if SSE changes there.
    fn switch(&self, d: &mut Device, cycle: usize) {
        if cycle == self.stop {
            crate::write(d, CR1, self.cr1 & !SSE);
        } else if self.start == Some(cycle) {
            crate::write(d, CR1, self.cr1);
        }
    }

    fn put_edition<W: Write>(&self, out: &mut W, edition: Edition) -> io::Result<()> {
        let label = Label {
            name: self.name,
            edition,
        };
        let mut d = Setup {
            edition,
            cr0: self.cr0,
            cpsr: self.cpsr,
            words: self.words,
            cr1: self.cr1,
        }
        .device();
        write!(out, "{label}: ")?;
        for (cycle, digit) in self.wave.bytes().enumerate() {
            self.switch(&mut d, cycle);
            put_cycle(out, &mut d, digit)?;
        }
        writeln!(out)?;
        put_received(out, &label, &mut d)?;
        writeln!(out, "{label} left: {:X}", crate::waiting(&d))
    }
}

impl Recorded for Stopped<'_> {
    fn put<W: Write>(&self, out: &mut W) -> io::Result<()> {
        for edition in self.editions {
            self.put_edition(out, *edition)?;
        }
        Ok(())
    }
}

// Masters stopped in the middle of a word, with another waiting; TI also in the slots that join two words.
const STOPPED_MASTERS: &[Stopped<'static>] = &[
    Stopped {
        name: "stopped SPH 0",
        editions: BOTH,
        cr0: 0x0003,
        cpsr: 2,
        cr1: 0x2,
        words: &[0xA, 0x5],
        stop: 6,
        start: None,
        wave: "000000000000000",
    },
    Stopped {
        name: "stopped SPH 1",
        editions: BOTH,
        cr0: 0x0083,
        cpsr: 2,
        cr1: 0x2,
        words: &[0xA, 0x5],
        stop: 6,
        start: None,
        wave: "000000000000000",
    },
    Stopped {
        name: "stopped TI",
        editions: BOTH,
        cr0: 0x0013,
        cpsr: 2,
        cr1: 0x2,
        words: &[0xA, 0x5],
        stop: 5,
        start: None,
        wave: "000000000000000",
    },
    Stopped {
        name: "stopped TI in joined slots",
        editions: BOTH,
        cr0: 0x0013,
        cpsr: 2,
        cr1: 0x2,
        words: &[0xA, 0x5, 0xC],
        stop: 9,
        start: None,
        wave: "00000000000000000000000",
    },
    Stopped {
        name: "stopped Microwire",
        editions: BOTH,
        cr0: 0x0023,
        cpsr: 2,
        cr1: 0x2,
        words: &[0xA5, 0x3C],
        stop: 21,
        start: None,
        wave: "00000000000000000000000000000000",
    },
    Stopped {
        name: "stopped SPH 0 within a slot, h 2",
        editions: SECOND,
        cr0: 0x0003,
        cpsr: 4,
        cr1: 0x2,
        words: &[0xA, 0x5],
        stop: 11,
        start: None,
        wave: "0000000000000000000000000",
    },
    Stopped {
        name: "stopped TI loopback",
        editions: SECOND,
        cr0: 0x0013,
        cpsr: 2,
        cr1: 0x3,
        words: &[0xA, 0x5],
        stop: 5,
        start: None,
        wave: "000000000000000",
    },
];

// SSE set again before the end of the frame, with a word waiting: it is taken if the slot that takes words is still to come,
// and not if that slot has passed.
const RESUMED_MASTERS: &[Stopped<'static>] = &[
    Stopped {
        name: "resumed SPH 0",
        editions: SECOND,
        cr0: 0x0003,
        cpsr: 2,
        cr1: 0x2,
        words: &[0xA, 0x5],
        stop: 4,
        start: Some(8),
        wave: "0000000000000000000000000000",
    },
    Stopped {
        name: "resumed SPH 1 before slot 2b + 1",
        editions: SECOND,
        cr0: 0x0083,
        cpsr: 2,
        cr1: 0x2,
        words: &[0xA, 0x5],
        stop: 4,
        start: Some(9),
        wave: "000000000000000000000000",
    },
    Stopped {
        name: "resumed SPH 1 in slot 2b + 1, h 2",
        editions: SECOND,
        cr0: 0x0083,
        cpsr: 4,
        cr1: 0x2,
        words: &[0x5, 0xA],
        stop: 12,
        start: Some(19),
        wave: "0000000000000000000000000000000000000000000000000000",
    },
    Stopped {
        name: "resumed TI before slot 2b",
        editions: SECOND,
        cr0: 0x0013,
        cpsr: 2,
        cr1: 0x2,
        words: &[0xA, 0x5],
        stop: 5,
        start: Some(8),
        wave: "00000000000000000000000",
    },
    Stopped {
        name: "resumed TI in slot 2b",
        editions: SECOND,
        cr0: 0x0013,
        cpsr: 2,
        cr1: 0x2,
        words: &[0xA, 0x5],
        stop: 5,
        start: Some(9),
        wave: "0000000000000000000000000",
    },
    Stopped {
        name: "resumed Microwire before slot 18 + 2b",
        editions: SECOND,
        cr0: 0x0023,
        cpsr: 2,
        cr1: 0x2,
        words: &[0xA5, 0x3C],
        stop: 21,
        start: Some(26),
        wave: "00000000000000000000000000000000000000000000000000000000000",
    },
    Stopped {
        name: "resumed Microwire in slot 18 + 2b",
        editions: SECOND,
        cr0: 0x0023,
        cpsr: 2,
        cr1: 0x2,
        words: &[0xA5, 0x3C],
        stop: 21,
        start: Some(27),
        wave: "00000000000000000000000000000000000000000000000000000000000000",
    },
    Stopped {
        name: "resumed SPH 0 before the idle slots, h 2",
        editions: SECOND,
        cr0: 0x0003,
        cpsr: 4,
        cr1: 0x2,
        words: &[0xA, 0x5],
        stop: 11,
        start: Some(20),
        wave: "0000000000000000000000000000000000000000000000000000",
    },
    Stopped {
        name: "resumed SPH 0 in the idle slots, h 2",
        editions: SECOND,
        cr0: 0x0003,
        cpsr: 4,
        cr1: 0x2,
        words: &[0xA, 0x5],
        stop: 11,
        start: Some(21),
        wave: "0000000000000000000000000000000000000000000000000",
    },
];

// Slaves stopped in the middle of a word, a Microwire slave in its control byte too.
const STOPPED_SLAVES: &[Stopped<'static>] = &[
    Stopped {
        name: "stopped slave SPH 0",
        editions: BOTH,
        cr0: 0x0003,
        cpsr: 2,
        cr1: 0x6,
        words: &[0x9, 0x6],
        stop: 13,
        start: None,
        wave: "220044550011445500110022220000114455001144554422222222",
    },
    Stopped {
        name: "stopped slave SPH 1",
        editions: BOTH,
        cr0: 0x0083,
        cpsr: 2,
        cr1: 0x6,
        words: &[0x9, 0x6],
        stop: 13,
        start: None,
        wave: "220055441100554411001100554411005544442222005544110055441100002222",
    },
    Stopped {
        name: "stopped slave TI",
        editions: BOTH,
        cr0: 0x0013,
        cpsr: 2,
        cr1: 0x6,
        words: &[0x9, 0x6],
        stop: 15,
        start: None,
        wave: "00332255441100554411000000332211005544110055440000",
    },
    Stopped {
        name: "stopped slave Microwire",
        editions: BOTH,
        cr0: 0x0023,
        cpsr: 2,
        cr1: 0x6,
        words: &[0x9, 0x6],
        stop: 28,
        start: None,
        wave: "2245014501014501450100110011001100110022201014545454501010101010101022",
    },
    Stopped {
        name: "stopped slave Microwire in control bits",
        editions: BOTH,
        cr0: 0x0023,
        cpsr: 2,
        cr1: 0x6,
        words: &[0x9],
        stop: 20,
        start: None,
        wave: "224455001144550011001144550011445500110011001100110011002222",
    },
    Stopped {
        name: "stopped slave SPH 0, FSS HIGH in the word",
        editions: SECOND,
        cr0: 0x0003,
        cpsr: 2,
        cr1: 0x6,
        words: &[0x9, 0x6],
        stop: 11,
        start: None,
        wave: "2200445500110022220044550022",
    },
];

// Slaves with SSE set again: in the frame, and just before and just after the cycle in which a word would be taken.
const RESUMED_SLAVES: &[Stopped<'static>] = &[
    Stopped {
        name: "resumed slave SPH 0",
        editions: SECOND,
        cr0: 0x0003,
        cpsr: 2,
        cr1: 0x6,
        words: &[0x9, 0x6],
        stop: 13,
        start: Some(18),
        wave: "220044550011445500110022220000114455001144554422222222",
    },
    Stopped {
        name: "resumed slave SPH 1 before the last capture",
        editions: SECOND,
        cr0: 0x0083,
        cpsr: 2,
        cr1: 0x6,
        words: &[0x9, 0x6],
        stop: 13,
        start: Some(20),
        wave: "220055441100554411001100554411005544442222005544110055441100002222",
    },
    Stopped {
        name: "resumed slave SPH 1 behind the last capture",
        editions: SECOND,
        cr0: 0x0083,
        cpsr: 2,
        cr1: 0x6,
        words: &[0x9, 0x6],
        stop: 13,
        start: Some(21),
        wave: "220055441100554411001100554411005544442222005544110055441100002222",
    },
    Stopped {
        name: "resumed slave TI before the mark",
        editions: SECOND,
        cr0: 0x0013,
        cpsr: 2,
        cr1: 0x6,
        words: &[0x9, 0x6],
        stop: 15,
        start: Some(22),
        wave: "003322554411005544332211005544110055440000332211001100554455440000",
    },
    Stopped {
        name: "resumed slave TI behind the mark",
        editions: SECOND,
        cr0: 0x0013,
        cpsr: 2,
        cr1: 0x6,
        words: &[0x9, 0x6],
        stop: 15,
        start: Some(23),
        wave: "003322554411005544332211005544110055440000332211001100554455440000",
    },
    Stopped {
        name: "resumed slave Microwire before the ninth rise",
        editions: SECOND,
        cr0: 0x0023,
        cpsr: 2,
        cr1: 0x6,
        words: &[0x9],
        stop: 10,
        start: Some(21),
        wave: "22450145010145014501010101010101454545450101010101010102222",
    },
    Stopped {
        name: "resumed slave Microwire behind the ninth rise",
        editions: SECOND,
        cr0: 0x0023,
        cpsr: 2,
        cr1: 0x6,
        words: &[0x9],
        stop: 10,
        start: Some(22),
        wave: "22450145010145014501010101010101454545450101010101010102222",
    },
];

// All of these recordings, in order.
pub(crate) const ALL: &[&[Stopped<'static>]] = &[
    STOPPED_MASTERS,
    RESUMED_MASTERS,
    STOPPED_SLAVES,
    RESUMED_SLAVES,
];
