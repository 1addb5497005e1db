// Lengths in cycles, lengths in slots and h are three types, so that none is taken for another.
// Their numbers are compared, as the definitions do (`count_sound`, `timeout_of`, `ticked`, `running_sound`): no order is derived.
#![tactic(auto, unfolding(crate::specs::Time::cycles_of))]

ghost use Rattle.std.specs.Prelude.{◌≡◌};
ghost use Rattle.registers.specs.Time.{cycles_of};

// A length in cycles of the port's clock.
#[derive(Clone, Copy)]
pub struct Cycles(pub u32);

// A length in slots: two slots are a bit.
#[derive(Clone, Copy)]
pub struct Slots(pub u16);

// h, the cycles in a slot.
#[derive(Clone, Copy)]
pub struct Divisor(pub u16);

// The cycles of a number of slots. No other conversion exists.
pub fn cycles_of(slots: Slots, divisor: Divisor) -> Cycles
    ensures { result ≡ cycles_of slots divisor }
{
    Cycles((slots.0 as u32) * (divisor.0 as u32))
}
