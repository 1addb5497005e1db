// Reading and writing the registers.
#![tactic(auto, using(crate::specs::Model::Inside::model_of_lem, crate::proofs::Numbers::number_given), unfolding(crate::specs::Access::read_answer, crate::specs::Access::read_model, crate::specs::Access::data_taken, crate::specs::Access::write_refusal, crate::specs::Access::write_model, crate::specs::Access::cr0_rule, crate::specs::Access::cr1_rule, crate::specs::Access::cpsr_rule, crate::specs::Access::dr_rule, crate::specs::Access::cr0_written, crate::specs::Access::cr1_written, crate::specs::Access::cpsr_written, crate::specs::Access::icr_written, crate::specs::Access::dr_written, crate::specs::Access::imsc_written, crate::specs::Access::dmacr_written))]

ghost use Rattle.std.specs.Prelude.{◌≡◌};
ghost use Rattle.registers.specs.Model.{model_of};
ghost use Rattle.registers.specs.Refusals.{answer_of, refusal_number};
ghost use Rattle.registers.specs.Access.{read_refusal, read_word, read_done, data_taken, Read, bits_beyond, write_access, cr0_rule, cr1_rule, cpsr_rule, dr_rule, write_rule, write_refusal, cr0_written, cr1_written, cpsr_written, icr_written, dr_written, imsc_written, dmacr_written, write_done, Write};

use crate::offsets::{self, Register};
use crate::refusals::Refusal;
use crate::settings::permitted_of;
use crate::time::Cycles;
use crate::{Registers, bits};

// Reading ------------------------------------------------------------------------------------------------------------

impl Registers {
    fn read_refusal(&self, register: Register) -> Result<(), Refusal>
        ensures { refusal_number result ≡ read_refusal (model_of self.now) register }
    {
        match register {
            Register::Dr if self.rx.count() == 0 => Err(Refusal::QueueEmpty),
            Register::Icr => Err(Refusal::WrongAccess),
            Register::Reserved => Err(Refusal::ReservedOffset),
            Register::Outside => Err(Refusal::BadOffset),
            _ => Ok(()),
        }
    }

    // The word that is read. Not one Result with `read_refusal`: the definition gives a word, 0, for a refused read too.
    fn read_word(&self, frame: bool, register: Register) -> u16
        ensures { result ≡ read_word (model_of self.now) frame register }
    {
        match register {
            Register::Cr0 => self.control.cr0,
            Register::Cr1 => self.control.cr1,
            Register::Dr => self.rx.word_at(0),
            Register::Sr => self.status(frame),
            Register::Cpsr => self.control.cpsr as u16,
            Register::Imsc => self.masks.imsc as u16,
            Register::Ris => u16::from(self.raw()),
            Register::Mis => u16::from(self.masked()),
            Register::Dmacr => self.masks.dmacr as u16,
            Register::Identity(i) => offsets::identity_of(i) as u16,
            Register::Icr | Register::Reserved | Register::Outside => 0,
        }
    }

    // A DR read takes the oldest received word and makes the RT count zero; if this empties the queue, RT is cleared.
    fn take_data(&mut self)
        ensures { model_of self.new ≡ data_taken (model_of self.old) }
    {
        self.rx.take_oldest();
        self.timeout.rt &= self.rx.count() != 0;
        self.timeout.count = Cycles(0);
    }

    // What a read that is done leaves.
    fn finish_read(&mut self, register: Register)
        ensures { model_of self.new ≡ read_done (model_of self.old) register }
    {
        if let Register::Dr = register {
            self.take_data();
        }
    }

    // A register read; `frame` says whether a frame is in progress.
    pub fn read(&mut self, offset: u32, frame: bool) -> Result<u16, Refusal>
        ensures { Read (model_of self.old) frame offset (answer_of result) (model_of self.new) }
    {
        let register = Register::from(offset);
        self.read_refusal(register)?;
        let word = self.read_word(frame, register);
        self.finish_read(register);
        Ok(word)
    }
}

// Writing ------------------------------------------------------------------------------------------------------------

fn bits_beyond(limit: u32, value: u32) -> Result<(), Refusal>
    ensures { refusal_number result ≡ bits_beyond limit value }
{
    if limit <= value {
        Err(Refusal::ExtraBits)
    } else {
        Ok(())
    }
}

fn write_access(register: Register, value: u32) -> Result<(), Refusal>
    ensures { refusal_number result ≡ write_access register value }
{
    match register {
        Register::Cr0 | Register::Dr => bits_beyond(0x10000, value),
        Register::Cr1 | Register::Imsc => bits_beyond(0x10, value),
        Register::Cpsr => bits_beyond(0x100, value),
        Register::Icr | Register::Dmacr => bits_beyond(0x4, value),
        Register::Sr | Register::Ris | Register::Mis | Register::Identity(_) => {
            Err(Refusal::WrongAccess)
        }
        Register::Reserved => Err(Refusal::ReservedOffset),
        Register::Outside => Err(Refusal::BadOffset),
    }
}

fn cr0_rule(active: bool, value: u32) -> Result<(), Refusal>
    ensures { refusal_number result ≡ cr0_rule active value }
{
    if active {
        return Err(Refusal::EngineActive);
    }
    if !permitted_of(value) {
        return Err(Refusal::NotPermitted);
    }
    Ok(())
}

fn cpsr_rule(active: bool) -> Result<(), Refusal>
    ensures { refusal_number result ≡ cpsr_rule active }
{
    if active {
        Err(Refusal::EngineActive)
    } else {
        Ok(())
    }
}

impl Registers {
    fn cr1_rule(&self, active: bool, value: u32) -> Result<(), Refusal>
        ensures { refusal_number result ≡ cr1_rule (model_of self.now) active value }
    {
        let old = self.control.cr1 as u32;
        let held = active & (bits::bits_differ(old, value, 2) | bits::bits_differ(old, value, 0));
        if held {
            return Err(Refusal::EngineActive);
        }
        let good = permitted_of(self.control.cr0 as u32);
        let unready = bits::bit_at(value, 1) & (!good | (self.control.cpsr == 0));
        if unready {
            return Err(Refusal::NotPermitted);
        }
        Ok(())
    }

    fn dr_rule(&self) -> Result<(), Refusal>
        ensures { refusal_number result ≡ dr_rule (model_of self.now) }
    {
        let full = queue::PLACES <= self.tx.count();
        if full {
            Err(Refusal::QueueFull)
        } else {
            Ok(())
        }
    }

    fn write_rule(&self, active: bool, register: Register, value: u32) -> Result<(), Refusal>
        ensures { refusal_number result ≡ write_rule (model_of self.now) active register value }
    {
        match register {
            Register::Cr0 => cr0_rule(active, value),
            Register::Cr1 => self.cr1_rule(active, value),
            Register::Dr => self.dr_rule(),
            Register::Cpsr => cpsr_rule(active),
            _ => Ok(()),
        }
    }

    fn write_refusal(&self, active: bool, register: Register, value: u32) -> Result<(), Refusal>
        ensures { refusal_number result ≡ write_refusal (model_of self.now) active register value }
    {
        write_access(register, value)?;
        self.write_rule(active, register, value)
    }

    fn write_cr0(&mut self, value: u32)
        ensures { model_of self.new ≡ cr0_written (model_of self.old) value }
    {
        self.control.cr0 = (value % 0x10000) as u16;
    }

    // With SSE clear the RT count is zero; both queues keep their words.
    fn write_cr1(&mut self, value: u32)
        ensures { model_of self.new ≡ cr1_written (model_of self.old) value }
    {
        self.control.cr1 = (value % 0x10) as u16;
        let enabled = bits::bit_at(value, 1);
        if !enabled {
            self.timeout.count = Cycles(0);
        }
    }

    // Bit 0 is dropped.
    fn write_cpsr(&mut self, value: u32)
        ensures { model_of self.new ≡ cpsr_written (model_of self.old) value }
    {
        self.control.cpsr = (value % 0x100 / 2 * 2) as u8;
    }

    // Bit 0 clears ROR; bit 1 clears RT and makes the RT count zero.
    fn write_icr(&mut self, value: u32)
        ensures { model_of self.new ≡ icr_written (model_of self.old) value }
    {
        self.ror &= !bits::bit_at(value, 0);
        let cleared = bits::bit_at(value, 1);
        self.timeout.rt &= !cleared;
        if cleared {
            self.timeout.count = Cycles(0);
        }
    }

    // The value becomes the newest word in the transmit queue.
    fn write_dr(&mut self, value: u32)
        ensures { model_of self.new ≡ dr_written (model_of self.old) value }
    {
        self.tx.add((value % 0x10000) as u16);
    }

    fn write_imsc(&mut self, value: u32)
        ensures { model_of self.new ≡ imsc_written (model_of self.old) value }
    {
        self.masks.imsc = (value % 0x10) as u8;
    }

    fn write_dmacr(&mut self, value: u32)
        ensures { model_of self.new ≡ dmacr_written (model_of self.old) value }
    {
        self.masks.dmacr = (value % 0x4) as u8;
    }

    // What a write that is done leaves.
    fn finish_write(&mut self, register: Register, value: u32)
        ensures { model_of self.new ≡ write_done (model_of self.old) register value }
    {
        match register {
            Register::Cr0 => self.write_cr0(value),
            Register::Cr1 => self.write_cr1(value),
            Register::Dr => self.write_dr(value),
            Register::Cpsr => self.write_cpsr(value),
            Register::Imsc => self.write_imsc(value),
            Register::Icr => self.write_icr(value),
            Register::Dmacr => self.write_dmacr(value),
            _ => {}
        }
    }

    // A register write; `active` says whether the engine is active.
    pub fn write(&mut self, active: bool, offset: u32, value: u32) -> Result<(), Refusal>
        ensures { Write (model_of self.old) active offset value (refusal_number result) (model_of self.new) }
    {
        let register = Register::from(offset);
        self.write_refusal(active, register, value)?;
        self.finish_write(register, value);
        Ok(())
    }
}
