// What CR0, CR1 and CPSR mean.
#![tactic(auto, using(crate::specs::Model::Inside::model_of_lem, crate::proofs::Products::divisor_most), unfolding(crate::specs::Settings::format_of, crate::specs::Settings::permitted_of, crate::specs::Settings::bits_of, crate::specs::Settings::divisor_of, crate::specs::Settings::enabled_of, crate::specs::Settings::settings_of))]

ghost use Rattle.std.specs.Prelude.{◌≡◌};
ghost use Rattle.registers.specs.Model.{model_of};
ghost use Rattle.registers.specs.Settings.{format_of, permitted_of, DivisorOf, settings_of, enabled_of, enabled};

use crate::time::Divisor;
use crate::{Control, Registers, bits};

// The frame format.
#[derive(Clone, Copy)]
pub enum Format {
    Motorola,
    Ti,
    Microwire,
    Reserved,
}

// All settings that the serial engine uses.
#[derive(Clone, Copy)]
pub struct Settings {
    pub format: Format,
    // SPH
    pub phase: bool,
    // SPO
    pub polarity: bool,
    // b, the bits of a word
    pub bits: u8,
    // h, the cycles in a slot; two slots are a bit
    pub divisor: Divisor,
    // MS
    pub slave: bool,
    // SOD: a slave does not drive its output
    pub sod: bool,
    // LBM
    pub loopback: bool,
    // SSE
    pub enabled: bool,
    // the second edition
    pub edition2: bool,
}

// Whether the low 16 bits are a permitted CR0: a format below 3, at least four bits.
pub fn permitted_of(cr0: u32) -> bool
    ensures { result ≡ permitted_of cr0 }
{
    (cr0 / 16 % 4 < 3) & (3 <= cr0 % 16)
}

impl Control {
    // FRF. Not a From: the other bits of CR0 say nothing of the format.
    fn format(&self) -> Format
        ensures { result ≡ format_of self.now.cr0 }
    {
        let frf = self.cr0 / 16 % 4;
        match frf {
            0 => Format::Motorola,
            1 => Format::Ti,
            2 => Format::Microwire,
            _ => Format::Reserved,
        }
    }

    pub(crate) fn divisor(&self) -> Divisor
        ensures { DivisorOf self.now result }
    {
        Divisor(((self.cpsr / 2) as u16) * (1 + self.cr0 / 256 % 256))
    }

    pub(crate) fn enabled(&self) -> bool
        ensures { result ≡ enabled_of self.now }
    {
        bits::bit_at(self.cr1 as u32, 1)
    }
}

impl Registers {
    // SSE.
    pub fn enabled(&self) -> bool
        ensures { result ≡ enabled (model_of self.now) }
    {
        self.control.enabled()
    }

    // The settings of the engine.
    pub fn settings(&self) -> Settings
        ensures { result ≡ settings_of (model_of self.now).control }
    {
        let cr0 = self.control.cr0 as u32;
        let cr1 = self.control.cr1 as u32;
        Settings {
            format: self.control.format(),
            phase: bits::bit_at(cr0, 7),
            polarity: bits::bit_at(cr0, 6),
            bits: (cr0 % 16) as u8 + 1,
            divisor: self.control.divisor(),
            slave: bits::bit_at(cr1, 2),
            sod: bits::bit_at(cr1, 3),
            loopback: bits::bit_at(cr1, 0),
            enabled: self.enabled(),
            edition2: self.control.edition2,
        }
    }
}
