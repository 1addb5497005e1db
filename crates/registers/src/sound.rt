// Whether a register file is sound.
#![tactic(auto, using(crate::specs::Model::Inside::model_of_lem), unfolding(crate::specs::Sound::control_sound, crate::specs::Sound::masks_sound, crate::specs::Sound::queues_sound, crate::specs::Sound::count_sound, crate::specs::Sound::sound_registers))]

ghost use Rattle.std.specs.Prelude.{◌≡◌};
ghost use Rattle.registers.specs.Model.{model_of};
ghost use Rattle.registers.specs.Sound.{control_sound, masks_sound, queues_sound, count_sound, sound_registers};

use crate::settings::permitted_of;
use crate::{Control, Masks, Registers};

impl Control {
    // CR0 is 0 or permitted, CPSR is even, CR1 is at most 15; while the engine is active, CR0 is permitted and CPSR is not 0.
    fn sound(&self, active: bool) -> bool
        ensures { result ≡ control_sound self.now active }
    {
        let permitted = permitted_of(self.cr0 as u32);
        (((self.cr0 == 0) | permitted) & (self.cpsr % 2 == 0))
            & ((self.cr1 <= 15) & (!active | (permitted & (self.cpsr != 0))))
    }
}

impl Masks {
    // IMSC is at most 15, DMACR at most 3.
    fn sound(&self) -> bool
        ensures { result ≡ masks_sound self.now }
    {
        (self.imsc <= 15) & (self.dmacr <= 3)
    }
}

impl Registers {
    // Each queue has at most eight words.
    fn queues_sound(&self) -> bool
        ensures { result ≡ queues_sound (model_of self.now) }
    {
        (self.tx.count() <= queue::PLACES) & (self.rx.count() <= queue::PLACES)
    }

    // The RT count is below 64h with SSE set, and 0 with SSE clear.
    fn count_sound(&self) -> bool
        ensures { result ≡ count_sound (model_of self.now) }
    {
        let n = self.timeout.count.0;
        let on = self.enabled();
        if on { n < self.limit().0 } else { n == 0 }
    }

    // Whether registers, queues and timeout are sound together.
    pub fn sound(&self, active: bool) -> bool
        ensures { result ≡ sound_registers (model_of self.now) active }
    {
        (self.control.sound(active) & self.masks.sound())
            & (self.queues_sound() & self.count_sound())
    }
}
