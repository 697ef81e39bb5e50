//! Why a profile has no filter.
use crate::build::CodeFault;
use std::alloc::{AllocError, AllocFailed};

/// A call's architecture, by its number of linux/audit.h, and its number; two entries of the profile with rules for it that say
/// different things, and the arguments of a call that both rules fit.
#[derive(Clone, Copy, Debug, PartialEq, Eq)]
pub struct Clash {
    pub arch: u32,
    pub number: u32,
    pub first: usize,
    pub second: usize,
    pub args: [u64; 6],
}

/// A rule by the place of its part in the profile, and its own place in the part, from 0 on.
#[derive(Clone, Copy, Debug, PartialEq, Eq)]
pub struct RulePlace {
    pub part: usize,
    pub rule: usize,
}

/// Why a profile has no filter.
#[derive(Clone, Copy, Debug, PartialEq, Eq)]
pub enum ProfileFault {
    /// This rule has a condition on a seventh argument, or two on one.
    Rule(RulePlace),
    /// Two rules for a number have conditions that fit one call, and different values.
    Clashes(Clash),
    /// The filter would have more than 4096 instructions.
    TooLong,
    /// Memory was refused.
    Memory,
}

impl From<AllocError> for ProfileFault {
    ghost use Rattle.std.specs.Prelude.{◌≡◌};
    ghost use Rattle.sk_profile.specs.declared.fault.ProfileFault.TheVariants.{Memory};

    ghost from_gives = { λ _ fault. fault ≡ Memory };

    fn from(_refused: AllocError) -> ProfileFault {
        ProfileFault::Memory
    }
}

impl<T: Drop> From<AllocFailed<T>> for ProfileFault {
    ghost use Rattle.std.specs.Prelude.{◌≡◌};
    ghost use Rattle.sk_profile.specs.declared.fault.ProfileFault.TheVariants.{Memory};

    ghost from_gives = { λ _ fault. fault ≡ Memory };

    fn from(_refused: AllocFailed<T>) -> ProfileFault {
        ProfileFault::Memory
    }
}

impl From<CodeFault> for ProfileFault {
    ghost use Rattle.std.specs.Prelude.{◌≡◌};
    ghost use Rattle.sk_profile.specs.Faults.{of_code};

    ghost from_gives = { λ code fault. fault ≡ of_code code };

    fn from(fault: CodeFault) -> ProfileFault {
        match fault {
            CodeFault::TooLong => ProfileFault::TooLong,
            CodeFault::Memory => ProfileFault::Memory,
        }
    }
}
