// What a call on records is refused with.
ghost use Rattle.std.specs.Prelude.{◌≡◌};
ghost use Rattle.device_record.specs.Refusals.{number};
ghost use Rattle.device_record.specs.declared.refusals.Refusal.TheVariants.{Access};

use registers::refusals::Refusal as AccessRefusal;

// Why a call was refused.
#[derive(Clone, Copy, Debug, PartialEq, Eq)]
pub enum Refusal {
    // the register access itself was refused
    Access(AccessRefusal),
    Unsound,
    WrongLength,
    // input and output of a run differ in length
    LinesDiffer,
    // an input byte above 7
    BadInput,
    NoEdition,
}

impl From<AccessRefusal> for Refusal {
    ghost from_gives = { λ access refusal. refusal ≡ Access access };

    fn from(access: AccessRefusal) -> Refusal {
        Self::Access(access)
    }
}

impl From<Refusal> for u8 {
    ghost from_gives = { λ refusal n. n ≡ number refusal };

    fn from(refusal: Refusal) -> u8 {
        match refusal {
            Refusal::Access(access) => u8::from(access),
            Refusal::Unsound => 9,
            Refusal::WrongLength => 10,
            Refusal::LinesDiffer => 11,
            Refusal::BadInput => 12,
            Refusal::NoEdition => 20,
        }
    }
}
