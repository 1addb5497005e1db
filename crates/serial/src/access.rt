// Register accesses to a device. They fall between cycles: pins and lines stay.
#![tactic(auto, unfolding(crate::specs::Cycle::device_of, crate::specs::Access::read_answer_of, crate::specs::Access::read_device, crate::specs::Access::write_refusal_of, crate::specs::Access::write_device, crate::specs::Access::engine_after))]

ghost use Rattle.std.specs.Prelude.{◌≡◌};
ghost use Rattle.registers.specs.Refusals.{answer_of, refusal_number};
ghost use Rattle.serial.specs.Cycle.{device_of};
ghost use Rattle.serial.specs.Access.{Read, Write};

use crate::Device;
use registers::refusals::Refusal;

impl Device {
    // A register read.
    pub fn read(&mut self, offset: u32) -> Result<u16, Refusal>
        ensures { Read (device_of self.old) offset (answer_of result) (device_of self.new) }
    {
        let frame = self.engine.frame;
        self.registers.read(offset, frame)
    }

    // A register write. Clearing SSE clears the engine, unless in edition 2 a frame is in progress.
    pub fn write(&mut self, offset: u32, value: u32) -> Result<(), Refusal>
        ensures { Write (device_of self.old) offset value (refusal_number result) (device_of self.new) }
    {
        let was = self.registers.enabled();
        let active = self.engine.active(self.registers.settings());
        self.registers.write(active, offset, value)?;
        if was {
            let after = self.registers.settings();
            self.engine = self.engine.while_active(after);
        }
        Ok(())
    }
}
