// The register file of the PL022, with its two queues of eight words.
// Every function takes any value of its parameters; its contract is about the model in specs/Model.antt.
#![tactic(auto, using(crate::specs::Model::Inside::model_of_lem))]

ghost use Rattle.std.specs.Prelude.{◌≡◌};
ghost use Rattle.registers.specs.Model.{model_of, reset_registers};

// A bit of a word.
pub mod bits;
// Cycles, slots and h.
pub mod time;
// The register that an offset names.
pub mod offsets;
// Why an access is refused.
pub mod refusals;
// What the control registers mean.
pub mod settings;
// SR and the interrupts.
pub mod flags;
// Reads and writes.
mod access;
// Words from and to the engine; the receive timeout.
mod transfer;
// Which register files are sound.
mod sound;
// A register file as plain fields.
pub mod fields;

use crate::time::Cycles;
use queue::Queue;

// The registers that set the port up.
#[derive(Clone, Copy)]
pub struct Control {
    pub cr0: u16,
    // two bytes wide, so that no gap is left at the end
    pub cr1: u16,
    pub cpsr: u8,
    // chosen at reset: the second edition, in which a frame goes on after SSE is cleared
    pub edition2: bool,
}

// Registers that the port stores and the engine does not use.
#[derive(Clone, Copy)]
pub struct Masks {
    pub imsc: u8,
    pub dmacr: u8,
}

// The receive timeout: the flag RT, and the cycles counted towards it.
#[derive(Clone, Copy)]
pub struct Timeout {
    pub rt: bool,
    pub count: Cycles,
}

// The register file. Small fields are together, the masks first, so that there is no wide gap to copy.
#[derive(Clone, Copy)]
pub struct Registers {
    masks: Masks,
    control: Control,
    ror: bool,
    timeout: Timeout,
    tx: Queue,
    rx: Queue,
}

impl Registers {
    // Reset: all zero, queues empty, of the edition asked for.
    pub fn reset(edition2: bool) -> Registers
        ensures { model_of result ≡ reset_registers edition2 }
    {
        Registers {
            control: Control {
                cr0: 0,
                cr1: 0,
                cpsr: 0,
                edition2,
            },
            masks: Masks { imsc: 0, dmacr: 0 },
            timeout: Timeout {
                rt: false,
                count: Cycles(0),
            },
            ror: false,
            tx: Queue::empty(),
            rx: Queue::empty(),
        }
    }
}
