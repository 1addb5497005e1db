// The queue by itself.
use crate::report::Found;
use queue::Queue;
use std::io;
use std::io::Write;

fn put_count<W: Write>(out: &mut W, q: &Queue) -> io::Result<()> {
    writeln!(out, "queue count: {:#x}", q.count())
}

fn put_word<W: Write>(out: &mut W, q: &Queue, place: usize) -> io::Result<()> {
    writeln!(out, "queue word: {:#x}", q.word_at(place))
}

fn put_added<W: Write>(out: &mut W, q: &mut Queue, word: u16) -> io::Result<()> {
    writeln!(out, "queue add, dropped: {}", Found(q.add(word)))
}

fn put_oldest<W: Write>(out: &mut W, q: &mut Queue) -> io::Result<()> {
    writeln!(out, "queue oldest: {}", Found(q.take_oldest()))
}

// Seven words restored, three added, one taken.
pub(crate) fn run<W: Write>(out: &mut W) -> io::Result<()> {
    let mut q = Queue::restored([1, 2, 3, 4, 5, 6, 7, 0xFF], 7);
    put_count(out, &q)?;
    put_word(out, &q, 7)?;
    for word in [8, 9, 0] {
        put_added(out, &mut q, word)?;
    }
    put_count(out, &q)?;
    put_word(out, &q, 7)?;
    put_oldest(out, &mut q)?;
    put_word(out, &q, 0)?;
    put_count(out, &q)?;
    put_oldest(out, &mut Queue::empty())
}
