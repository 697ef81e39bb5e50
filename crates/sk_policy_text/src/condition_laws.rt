//! Laws on conditions, and worked examples. No program calls these functions: the contract of each is the law.
ghost use Rattle.sk_policy_text.specs.Conditions.{MixedAreNone, WordsTellMeaning};
ghost use Rattle.sk_policy_text.specs.WorkedConditions.{ConditionsWork};

/// No words have two meanings: conditions that are written alike hold on the same calls.
#[tactic(auto, using(crate::proofs::ConditionsMeaning::words_tell_meaning))]
pub fn words_tell_meaning()
    ensures law { WordsTellMeaning }
{}

/// `&&` and `||` stand beside each other only with brackets.
pub fn mixed_are_none()
    ensures law { MixedAreNone }
{}

/// Conditions as `ask when` and C have them, and calls on which they hold and do not.
#[tactic(auto, using(crate::proofs::ConditionsExamples::conditions_work))]
pub fn worked_conditions()
    ensures conditions { ConditionsWork }
{}
