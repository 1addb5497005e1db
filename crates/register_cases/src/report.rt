// How results are printed.
use crate::commands::Outcome;
use std::fmt;

// What a command gives, as the end of its case's line.
#[derive(Clone, Copy, Debug)]
pub(crate) struct Shown(pub Outcome);

impl fmt::Display for Shown {
    fn fmt<W: fmt::Write>(&self, f: &mut fmt::Formatter<W>) -> fmt::Result {
        match self.0 {
            Ok(Some(word)) => write!(f, "{word:#x}"),
            Ok(None) => write!(f, "done"),
            Err(refusal) => write!(f, "refused {}", u8::from(refusal)),
        }
    }
}

// A word of a queue, if there was one.
#[derive(Clone, Copy, Debug)]
pub(crate) struct Found(pub Option<u16>);

impl fmt::Display for Found {
    fn fmt<W: fmt::Write>(&self, f: &mut fmt::Formatter<W>) -> fmt::Result {
        match self.0 {
            Some(word) => write!(f, "{word:#x}"),
            None => write!(f, "none"),
        }
    }
}
