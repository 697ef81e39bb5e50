//! Why a text is not assembled.
ghost use Rattle.std.specs.Prelude.{◌≡◌};
ghost use Rattle.sk_asm.specs.declared.fault.AsmFault.TheVariants.{Memory};

use std::alloc::{AllocError, AllocFailed};

/// Why a text is not assembled. Lines are numbered from 1; an input that is too long is line 0.
#[derive(Clone, Copy, Debug, PartialEq, Eq)]
pub enum AsmFault {
    /// The line is not understood.
    Line { n: usize },
    /// A jump of the line goes to a label that is not given.
    Label { n: usize },
    /// The line gives a label again.
    Twice { n: usize },
    /// A conditional jump of the line goes over more than 255 instructions.
    Far { n: usize },
    /// A jump of the line goes backwards.
    Back { n: usize },
    /// The line has more than 255 bytes, or is the instruction after the 4096th.
    TooLong { n: usize },
    /// Memory was refused.
    Memory,
}

impl From<AllocError> for AsmFault {
    ghost from_gives = { λ _ fault. fault ≡ Memory };

    fn from(_refused: AllocError) -> AsmFault {
        AsmFault::Memory
    }
}

impl<T: Drop> From<AllocFailed<T>> for AsmFault {
    ghost from_gives = { λ _ fault. fault ≡ Memory };

    fn from(_refused: AllocFailed<T>) -> AsmFault {
        AsmFault::Memory
    }
}
