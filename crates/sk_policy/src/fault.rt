//! Why a policy has no filter.
use std::alloc::AllocError;

/// Why a policy has no filter.
#[derive(Clone, Copy, Debug, PartialEq, Eq)]
pub enum CodeFault {
    /// It would have more than 4096 instructions.
    TooLong,
    /// Memory was refused.
    Memory,
}

impl From<AllocError> for CodeFault {
    ghost use Rattle.std.specs.Prelude.{◌≡◌};
    ghost use Rattle.sk_policy.specs.declared.fault.CodeFault.TheVariants.{Memory};

    ghost from_gives = { λ _ fault. fault ≡ Memory };

    fn from(_refused: AllocError) -> CodeFault {
        CodeFault::Memory
    }
}
