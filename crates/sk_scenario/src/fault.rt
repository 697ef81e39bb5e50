//! Why an input is no scenario, or could not be read.
ghost use Rattle.std.specs.Prelude.{◌≡◌};
ghost use Rattle.sk_scenario.specs.Answers.{told};
ghost use Rattle.sk_scenario.specs.declared.fault.ScenarioFault.TheVariants.{Memory};

use crate::TextFault;
use std::alloc::{AllocError, AllocFailed};
use thiserror::Error;

/// Why an input is no scenario, or could not be read. Lines are numbered from 1; an input that is
/// too long is line 0. The display text is the line that the program writes.
#[derive(Clone, Copy, Debug, PartialEq, Eq, Error)]
pub enum ScenarioFault {
    /// The line is not understood.
    #[error("skern: line {n}: not understood")]
    Line { n: usize },
    /// The line has a name that is not given, or not to a program where one is wanted.
    #[error("skern: line {n}: no such name")]
    Unresolved { n: usize },
    /// The line is over a limit.
    #[error("skern: line {n}: over the limit")]
    Limit { n: usize },
    /// Memory was refused.
    #[error("skern: out of memory")]
    Memory,
}

impl From<TextFault> for ScenarioFault {
    ghost from_gives = { λ given fault. fault ≡ told given };

    fn from(fault: TextFault) -> ScenarioFault {
        match fault {
            TextFault::Line { n } => ScenarioFault::Line { n },
            TextFault::Unresolved { n } => ScenarioFault::Unresolved { n },
            TextFault::Limit { n } => ScenarioFault::Limit { n },
        }
    }
}

impl From<AllocError> for ScenarioFault {
    ghost from_gives = { λ _ fault. fault ≡ Memory };

    fn from(_refused: AllocError) -> ScenarioFault {
        ScenarioFault::Memory
    }
}

impl<T: Drop> From<AllocFailed<T>> for ScenarioFault {
    ghost from_gives = { λ _ fault. fault ≡ Memory };

    fn from(_refused: AllocFailed<T>) -> ScenarioFault {
        ScenarioFault::Memory
    }
}
