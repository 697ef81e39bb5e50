//! Why a policy's text has no filter.
use crate::policy_fault::PolicyFault;
use crate::sentence::SentenceFault;
use sk_names::Architecture;
use std::alloc::{AllocError, AllocFailed};

/// Why a policy's text has no filter.
#[derive(Clone, Copy, Debug, PartialEq, Eq)]
pub enum Refusal {
    /// The words of the sentence that begins in this line are none on calls of an architecture.
    Sentence(Architecture, usize, SentenceFault),
    /// The sentence of this line says what is expected of a verdict, for which this value stands, and a filter has no such verdict.
    Expectation(usize, u32),
    /// Its sentences are no policy.
    Policy(PolicyFault),
    /// The filter would have more than 4096 instructions. A range of a row takes at most 12 of them, and 7 for each word of its
    /// conditions.
    TooLong,
    /// Memory was refused.
    Memory,
}

impl From<AllocError> for Refusal {
    ghost use Rattle.std.specs.Prelude.{◌≡◌};
    ghost use Rattle.sk_policy_text.specs.declared.refusal.Refusal.TheVariants.{Memory};

    ghost from_gives = { λ _ fault. fault ≡ Memory };

    fn from(_refused: AllocError) -> Refusal {
        Refusal::Memory
    }
}

impl<T: Drop> From<AllocFailed<T>> for Refusal {
    ghost use Rattle.std.specs.Prelude.{◌≡◌};
    ghost use Rattle.sk_policy_text.specs.declared.refusal.Refusal.TheVariants.{Memory};

    ghost from_gives = { λ _ fault. fault ≡ Memory };

    fn from(_refused: AllocFailed<T>) -> Refusal {
        Refusal::Memory
    }
}
