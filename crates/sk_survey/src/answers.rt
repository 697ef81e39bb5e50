//! Sets of values that a filter can answer, and what two filters can answer together.
ghost use Rattle.std.specs.Prelude.{◌≡◌, ℕ, ◌⊎◌, IsOk, IfOk, [], ◌∷◌, Some};
ghost use Rattle.std.specs.Option.{option_eq};
ghost use Rattle.std.specs.Str.{bytes_eq};
ghost use Rattle.sk_insn.specs.declared.record.Record.{Record};
ghost use Rattle.sk_filter.specs.Preceding.{preceding};
ghost use Rattle.sk_survey.specs.Answers.{answers_of, IsAmong, AreRising};
ghost use Rattle.sk_survey.specs.Settling.{TellsOne};
ghost use Rattle.sk_survey.specs.Following.{Describes, StandsFor, OnlyFirsts};

use crate::known::Known;
use crate::merge::merge;
use crate::values::insert;
use std::alloc::{AllocError, Global};

/// The values that calls choose from.
#[derive(Debug, Drop)]
pub enum Answers {
    /// Any value at all.
    Any,
    /// One of these, which rise as signed numbers: in the order of precedence, and by their data within one action.
    Among(Vec<u32>),
}

impl Answers {
    /// The one value.
    pub fn one(alloc: Global, value: u32) -> Result<Answers, AllocError>
        ensures one { IfOk result (λ answers. answers_of answers ≡ Some (value ∷ [])) }
    {
        Ok(Answers::Among(vec![in alloc; value]?))
    }

    /// Adds the value of which this is known. The call's number, in a range, stands for any value.
    pub(crate) fn add(&mut self, known: Known) -> Result<(), AllocError>
        requires rising { AreRising (answers_of self.old) }
        ensures rising { AreRising (answers_of self.new) }
        ensures kept { (value : ℕ) → IsAmong value (answers_of self.old) → IsAmong value (answers_of self.new) }
        ensures added { IsOk result
            → (call : Record) (value : ℕ) → Describes known call value → IsAmong value (answers_of self.new) }
        ensures only { (value : ℕ) → IsAmong value (answers_of self.new)
            → IsAmong value (answers_of self.old) ⊎ StandsFor known value }
    {
        match known {
            Known::Is(value) => self.add_value(value),
            Known::Any | Known::Number => {
                *self = Answers::Any;
                Ok(())
            }
        }
    }

    fn add_value(&mut self, value: u32) -> Result<(), AllocError>
        requires rising { AreRising (answers_of self.old) }
        ensures rising { AreRising (answers_of self.new) }
        ensures kept { (other : ℕ) → IsAmong other (answers_of self.old) → IsAmong other (answers_of self.new) }
        ensures added { IsOk result → IsAmong value (answers_of self.new) }
        ensures only { (other : ℕ) → IsAmong other (answers_of self.new)
            → IsAmong other (answers_of self.old) ⊎ (other ≡ value) }
    {
        match self {
            Answers::Any => Ok(()),
            Answers::Among(values) => insert(values, value),
        }
    }

    /// What the first of a newer filter's value and an older one's can be.
    pub(crate) fn with_older(self, alloc: Global, older: Answers) -> Result<Answers, AllocError>
        requires newer { AreRising (answers_of self) }
        requires older { AreRising (answers_of older) }
        ensures rising { IfOk result (λ answers. AreRising (answers_of answers)) }
        ensures first { IfOk result (λ answers. (u s first : ℕ) → IsAmong u (answers_of self)
            → IsAmong s (answers_of older) → preceding (Some u) s ≡ Some first → IsAmong first (answers_of answers)) }
        ensures only { IfOk result (λ answers. OnlyFirsts (answers_of self) (answers_of older) (answers_of answers)) }
        ensures one { TellsOne (answers_of self) → TellsOne (answers_of older)
            → IfOk result (λ answers. TellsOne (answers_of answers)) }
    {
        match (self, older) {
            (Answers::Among(newer), Answers::Among(older)) => Ok(Answers::Among(merge(
                alloc, &newer, &older,
            )?)),
            _ => Ok(Answers::Any),
        }
    }

    /// Whether both are the same values.
    pub fn same(&self, other: &Answers) -> bool
        ensures exact { result ≡ option_eq bytes_eq (answers_of self.now) (answers_of other.now) }
    {
        match (self, other) {
            (Answers::Any, Answers::Any) => true,
            (Answers::Among(values), Answers::Among(others)) => values.as_slice()
                == others.as_slice(),
            _ => false,
        }
    }
}
