// A line of the input is a label, a colon, and commands with commas between them: `P6 write 9: write 0x08 9`.
// The label is written out, then what the last command gives.
use crate::commands;
use crate::report::Shown;
use registers::Registers;
use std::io;
use std::io::Write;

// A line with no colon is all label; commands that no line feed ends give nothing.
fn put_case<W: Write>(out: &mut W, r: &mut Registers, line: &[u8]) -> io::Result<()> {
    let Some(colon) = line.iter().position(|b| *b == b':') else {
        return out.write_all(line);
    };
    let (label, rest) = line.split_at(colon + 1);
    out.write_all(label)?;
    out.write_all(b" ")?;
    let Some(rest) = rest.strip_suffix(b"\n") else {
        return Ok(());
    };
    let mut outcome = Ok(None);
    for text in rest.split(|b| *b == b',') {
        outcome = commands::run(r, text);
    }
    writeln!(out, "{}", Shown(outcome))
}

pub(crate) fn run<W: Write>(out: &mut W, script: &[u8]) -> io::Result<()> {
    let mut r = commands::reset();
    for line in script.split_inclusive(|b| *b == b'\n') {
        put_case(out, &mut r, line)?;
    }
    Ok(())
}
