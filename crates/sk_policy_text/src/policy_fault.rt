//! Why sentences are no policy.
use crate::condition::ConditionFault;
use std::alloc::{AllocError, AllocFailed};

/// Why a sentence may not stand where it stands.
#[derive(Clone, Copy, Debug, PartialEq, Eq)]
pub enum Misplaced {
    /// A case or `else`, with no row above it whose cases they may be.
    NoRow,
    /// A case or `else`, with `else` between it and its row.
    BehindElse,
    /// A row that has neither a verdict nor `else` behind it.
    NoElse,
    DefaultTwice,
    OthersTwice,
    /// `arch`, with another sentence above it.
    ArchNotFirst,
}

/// What is wrong with a sentence.
#[derive(Clone, Copy, Debug, PartialEq, Eq)]
pub enum Wrong {
    Misplaced(Misplaced),
    /// The words of its condition are none.
    Unread(ConditionFault),
}

/// A number that stands in two rows, or twice in one: the line of the later one, and that of the earlier one.
#[derive(Clone, Copy, Debug, PartialEq, Eq)]
pub struct Twice {
    pub number: u32,
    pub line: usize,
    pub earlier: usize,
}

/// Why sentences are no policy.
#[derive(Clone, Copy, Debug, PartialEq, Eq)]
pub enum PolicyFault {
    /// The sentence of this line is wrong.
    Wrong(usize, Wrong),
    Twice(Twice),
    /// No row has this number, and no sentence says what is said of such numbers.
    Missing(u32),
    /// Its rules would have more than 4096 instructions: as many cases, those of a row once for each of its ranges, or terms.
    TooLong,
    /// Memory was refused.
    Memory,
}

impl From<AllocError> for PolicyFault {
    ghost use Rattle.std.specs.Prelude.{◌≡◌};
    ghost use Rattle.sk_policy_text.specs.declared.policy_fault.PolicyFault.TheVariants.{Memory};

    ghost from_gives = { λ _ fault. fault ≡ Memory };

    fn from(_refused: AllocError) -> PolicyFault {
        PolicyFault::Memory
    }
}

impl<T: Drop> From<AllocFailed<T>> for PolicyFault {
    ghost use Rattle.std.specs.Prelude.{◌≡◌};
    ghost use Rattle.sk_policy_text.specs.declared.policy_fault.PolicyFault.TheVariants.{Memory};

    ghost from_gives = { λ _ fault. fault ≡ Memory };

    fn from(_refused: AllocFailed<T>) -> PolicyFault {
        PolicyFault::Memory
    }
}
