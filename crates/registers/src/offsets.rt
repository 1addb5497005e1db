// Which register an offset names.
#![tactic(auto, unfolding(crate::specs::Offsets::register_of))]

ghost use Rattle.std.specs.Prelude.{◌≡◌};
ghost use Rattle.registers.specs.Offsets.{register_of, identity_of};

#[derive(Clone, Copy)]
pub enum Register {
    Cr0,
    Cr1,
    Dr,
    Sr,
    Cpsr,
    Imsc,
    Ris,
    Mis,
    Icr,
    Dmacr,
    // One of the eight identity registers, counted from 0.
    Identity(usize),
    // Below 0x1000, and no register.
    Reserved,
    // Not a multiple of 4, or 0x1000 and up.
    Outside,
}

// What the identity registers hold.
const IDENTITY: [u8; 8] = [0x22, 0x10, 0x34, 0x00, 0x0D, 0xF0, 0x05, 0xB1];

impl From<u32> for Register {
    ghost from_gives = { λ o r. r ≡ register_of o };

    fn from(offset: u32) -> Register {
        if offset % 4 != 0 {
            return Register::Outside;
        }
        match offset {
            0x00 => Register::Cr0,
            0x04 => Register::Cr1,
            0x08 => Register::Dr,
            0x0C => Register::Sr,
            0x10 => Register::Cpsr,
            0x14 => Register::Imsc,
            0x18 => Register::Ris,
            0x1C => Register::Mis,
            0x20 => Register::Icr,
            0x24 => Register::Dmacr,
            0x28..=0xFDC => Register::Reserved,
            0xFE0..=0xFFC => Register::Identity(((offset - 0xFE0) / 4) as usize),
            _ => Register::Outside,
        }
    }
}

// The word of an identity register by its index; 0 after the eighth. Not an Option: the definition gives 0 there.
pub fn identity_of(index: usize) -> u8
    ensures { result ≡ identity_of index }
{
    IDENTITY.get(index).copied().unwrap_or(0)
}
