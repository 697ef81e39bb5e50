//! What keeps the program from an answer.
use std::alloc::{AllocError, AllocFailed};

/// Why there is no answer.
#[derive(Drop)]
pub enum Trouble {
    /// The words or a file are refused, with this line.
    Refused(Vec<u8>),
    /// A read failed, which this line tells.
    Reading(Vec<u8>),
    /// Memory was refused.
    Memory,
}

impl From<AllocError> for Trouble {
    ghost use Rattle.std.specs.Prelude.{◌≡◌};
    ghost use Rattle.sk_ask.specs.declared.trouble.Trouble.TheVariants.{Memory};

    ghost from_gives = { λ _ trouble. trouble ≡ Memory };

    fn from(_refused: AllocError) -> Trouble {
        Trouble::Memory
    }
}

impl<T: Drop> From<AllocFailed<T>> for Trouble {
    ghost use Rattle.std.specs.Prelude.{◌≡◌};
    ghost use Rattle.sk_ask.specs.declared.trouble.Trouble.TheVariants.{Memory};

    ghost from_gives = { λ _ trouble. trouble ≡ Memory };

    fn from(_refused: AllocFailed<T>) -> Trouble {
        Trouble::Memory
    }
}
