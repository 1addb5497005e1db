// Runs the registers on the cases of its input, then the queue on a few of its own, and writes one line for each.
#![tactic(auto)]

mod cases;
mod commands;
mod queues;
mod report;

use std::io;
use std::io::{BufWriter, Read, Write};

// Input after this many bytes is not read.
const MOST_BYTES: u64 = 65536;

fn main(rt: HostRuntime) -> io::Result<()> {
    let mut script = Vec::new(rt.alloc());
    rt.reader().take(MOST_BYTES).read_to_end(&mut script)?;
    let mut out = BufWriter::new(rt.alloc(), io::writer(&rt))?;
    cases::run(&mut out, &script)?;
    queues::run(&mut out)?;
    out.flush()
}
