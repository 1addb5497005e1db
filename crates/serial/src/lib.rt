// The serial engine of the PL022 with its register file: a device as a value, one cycle at a time.
// Every function takes any value of its parameters; contracts cite the definitions of specs/, mostly by the same names.
#![tactic(auto)]

ghost use Rattle.std.specs.Prelude.{◌≡◌};
ghost use Rattle.serial.specs.Cycle.{device_of, reset_device};

// What a slave does at the edges of its pins.
pub mod slave;
// One cycle of a device.
mod cycle;
// The words lost to overrun.
pub mod lost;
// Reads and writes.
mod access;
// Which devices are sound.
mod sound;
// Two wired devices.
pub mod pair;

use frames::engine::Engine;
use frames::lines::{Lines, Pins};
use registers::Registers;

// The pins of the last three cycles.
#[derive(Clone, Copy)]
pub struct History {
    pub newest: Pins,
    pub middle: Pins,
    pub oldest: Pins,
}

// A PL022.
#[derive(Clone, Copy)]
pub struct Device {
    pub registers: Registers,
    pub engine: Engine,
    pub pins: History,
    // the lines of the last cycle
    pub lines: Lines,
}

impl Device {
    // A device after reset, of the edition asked for.
    #[tactic(auto, unfolding(crate::specs::Cycle::device_of))]
    pub fn reset(edition2: bool) -> Device
        ensures { device_of result ≡ reset_device edition2 }
    {
        let low = Pins {
            clk: false,
            fss: false,
            rxd: false,
        };
        Device {
            registers: Registers::reset(edition2),
            engine: Engine::cleared(),
            pins: History {
                newest: low,
                middle: low,
                oldest: low,
            },
            lines: Lines {
                clk: false,
                fss: true,
                txd: false,
                released: true,
            },
        }
    }
}
