// Why a read or a write of a register is refused.
ghost use Rattle.std.specs.Prelude.{◌≡◌};
ghost use Rattle.registers.specs.Refusals.{number};

// In the order in which they are checked.
#[derive(Clone, Copy, Debug, PartialEq, Eq)]
pub enum Refusal {
    // The offset is not a multiple of 4, or 0x1000 and up.
    BadOffset = 1,
    // A reserved offset.
    ReservedOffset = 2,
    // A write to a read-only register, or a read of a write-only one.
    WrongAccess = 3,
    // A bit is set outside those that may be written.
    ExtraBits = 4,
    // Not allowed while the engine is active.
    EngineActive = 5,
    // CR0 not permitted, or SSE set before CR0 and CPSR are set up.
    NotPermitted = 6,
    // The transmit queue has eight words already.
    QueueFull = 7,
    // The receive queue has no word.
    QueueEmpty = 8,
}

// The number of a refusal; 0 is left for an access that is done.
impl From<Refusal> for u8 {
    ghost from_gives = { λ r n. n ≡ number r };

    fn from(refusal: Refusal) -> u8 {
        refusal as u8
    }
}
