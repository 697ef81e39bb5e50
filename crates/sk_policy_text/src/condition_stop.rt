//! Why tokens are no condition.
use std::alloc::AllocFailed;

/// Why tokens are no condition.
#[derive(Clone, Copy, Debug, PartialEq, Eq)]
pub(crate) enum ConditionStop {
    /// They are not written so, with so many of them left.
    NotUnderstood(usize),
    /// More brackets are open than may be, with so many tokens left.
    TooDeep(usize),
    /// Memory was refused.
    Memory,
}

impl<T: Drop> From<AllocFailed<T>> for ConditionStop {
    ghost use Rattle.std.specs.Prelude.{◌≡◌};
    ghost use Rattle.sk_policy_text.specs.declared.condition_stop.ConditionStop.TheVariants.{Memory};

    ghost from_gives = { λ _ stop. stop ≡ Memory };

    fn from(_refused: AllocFailed<T>) -> ConditionStop {
        ConditionStop::Memory
    }
}
