// Whether a device is sound. Settings and engine stay two parameters, and functions, as in `slave`.
#![tactic(auto, unfolding(crate::specs::Cycle::device_of, crate::specs::Sound::stopped_sound, crate::specs::Sound::running_sound, crate::specs::Sound::engine_sound, crate::specs::Sound::sound_device))]

ghost use Rattle.std.specs.Prelude.{◌≡◌};
ghost use Rattle.serial.specs.Cycle.{device_of};
ghost use Rattle.serial.specs.Sound.{stopped_sound, running_sound, engine_sound, sound_device};

use crate::Device;
use frames::engine::Engine;
use frames::slots::{capture_width, last_slot};
use registers::settings::Settings;

// While the engine is not active: no frame, no selection, no TI mark; slot, elapsed cycles and captured bits are 0.
fn stopped_sound(e: Engine) -> bool
    ensures { result ≡ stopped_sound e }
{
    ((!e.frame & !e.selected) & !e.mark)
        & (((e.slot.0 == 0) & (e.elapsed.0 == 0)) & (e.shift.captured == 0))
}

// While the engine is active: slot at most the last, elapsed cycles below h, captured bits at most those of a received word.
fn running_sound(s: Settings, e: Engine) -> bool
    ensures { result ≡ running_sound s e }
{
    let last = last_slot(s).0;
    ((e.slot.0 <= last) & (e.elapsed.0 < s.divisor.0 as u32))
        & (e.shift.captured <= capture_width(s))
}

fn engine_sound(s: Settings, e: Engine) -> bool
    ensures { result ≡ engine_sound s e }
{
    if e.active(s) {
        running_sound(s, e)
    } else {
        stopped_sound(e)
    }
}

impl Device {
    // Whether the register file and the engine are sound.
    pub fn sound(&self) -> bool
        ensures { result ≡ sound_device (device_of self.now) }
    {
        let s = self.registers.settings();
        let kept = self.registers.sound(self.engine.active(s));
        let runs = engine_sound(s, self.engine);
        kept & runs
    }
}
