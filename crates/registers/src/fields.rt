// The register file as the fields that a record stores, and back.
#![tactic(auto, using(crate::specs::Model::Inside::model_of_lem), unfolding(crate::specs::Fields::places, crate::specs::Fields::fields_of, crate::specs::Fields::restored))]

ghost use Rattle.std.specs.Prelude.{◌≡◌};
ghost use Rattle.queue.specs.Fifo.{contents};
ghost use Rattle.registers.specs.Model.{model_of};
ghost use Rattle.registers.specs.Fields.{places, fields_of, restored};

use crate::{Control, Masks, Registers, Timeout};
use queue::Queue;

// The registers, and each queue as its eight places, oldest word first, with a count.
// Arrays with a count beside them: `fields_of` and `restored`, by which a record keeps its layout, have them so.
#[derive(Clone, Copy)]
pub struct Fields {
    pub control: Control,
    pub masks: Masks,
    pub timeout: Timeout,
    pub ror: bool,
    pub tx: [u16; 8],
    // how many words the transmit queue has
    pub waiting: u8,
    pub rx: [u16; 8],
    // how many words the receive queue has
    pub held: u8,
}

// A queue's eight places; 0 after the last word. A function, since a queue is of another crate.
fn places(q: &Queue) -> [u16; 8]
    ensures { result ≡ places (contents q.now) }
{
    let mut words = [0; 8];
    for (place, word) in words.iter_mut().enumerate() {
        *word = q.word_at(place);
    }
    words
}

// The fields of a register file.
impl From<Registers> for Fields {
    ghost from_gives = { λ r f. f ≡ fields_of (model_of r) };

    fn from(r: Registers) -> Fields {
        Fields {
            control: r.control,
            masks: r.masks,
            timeout: r.timeout,
            ror: r.ror,
            tx: places(&r.tx),
            waiting: r.tx.count() as u8,
            rx: places(&r.rx),
            held: r.rx.count() as u8,
        }
    }
}

// The register file of these fields; a count above eight acts as eight.
impl From<Fields> for Registers {
    ghost from_gives = { λ f r. model_of r ≡ restored f };

    fn from(f: Fields) -> Registers {
        Registers {
            control: f.control,
            masks: f.masks,
            timeout: f.timeout,
            ror: f.ror,
            tx: Queue::restored(f.tx, f.waiting as usize),
            rx: Queue::restored(f.rx, f.held as usize),
        }
    }
}
