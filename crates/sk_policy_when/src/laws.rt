//! Laws on the rows of `ask when` and policies, and on their texts. The contract of each function is the law.
ghost use Rattle.sk_policy_when.specs.Allowing.{AllowingFits, AllowingIsPolicy, AllowingIsRight, AllowingLogs, AllowingMakesFilters, AllowingSays, LoggedAreAllowed, NarrowedAreSeen, NoOthersAreAllowed};
ghost use Rattle.sk_policy_when.specs.WorkedAllowing.{AllowingWorks};
ghost use Rattle.sk_policy_when.specs.WorkedNarrowing.{NarrowingWorks};
ghost use Rattle.sk_policy_when.specs.Again.{RowsComeBack, FiltersComeBack, ArchitecturesComeBack, RowsAreRules};
ghost use Rattle.sk_policy_when.specs.Smaller.{OthersGetOne};
ghost use Rattle.sk_policy_when.specs.WorkedSmaller.{OthersWork};
ghost use Rattle.sk_policy_when.specs.Texts.{TextsComeBack, TextsMakeFilters, TextsNameEachNumber, TextsSayVerdicts};
ghost use Rattle.sk_policy_when.specs.Written.{ConditionsComeBack, FilledConditionsComeBack};

use sk_survey::architecture_laws::other_verdict_is_of_each_call;

/// A policy of the rows that `ask when` tells says of each call the verdict of the filters.
pub fn rows_come_back()
    ensures law { RowsComeBack }
{}

/// So a filter that means the policy answers each call as they do.
pub fn filters_come_back()
    ensures law { FiltersComeBack }
{}

/// And so it is with the calls of another architecture, where the rows are told for these.
pub fn architectures_come_back()
    ensures law { ArchitecturesComeBack }
{}

/// Its rules are apart, so that there is such a filter, if it is not too long.
pub fn rows_are_rules()
    ensures law { RowsAreRules }
{}

/// The text of a line's condition is a condition of a policy, which holds where that of the line does.
pub fn conditions_come_back()
    ensures law { ConditionsComeBack }
{}

/// So is the text where it stands in several lines, as the words of these are one after the other.
pub fn filled_conditions_come_back()
    ensures law { FilledConditionsComeBack }
{}

/// The text of rows that each have one verdict of a named action for each of their calls is read as sentences that are these rows.
pub fn texts_come_back()
    ensures law { TextsComeBack }
{}

/// Whoever reads the text of rows that are told of filters finds in it the verdict of these on each call.
pub fn texts_say_verdicts()
    ensures law { TextsSayVerdicts }
{}

/// So a filter that is made of the text answers each call of x86-64 as they do.
pub fn texts_make_filters()
    ensures law { TextsMakeFilters }
{}

/// And no number stands twice in the text, nor is left out, so that it is a policy.
pub fn texts_name_each_number()
    ensures law { TextsNameEachNumber }
{}

/// Where one verdict is told of every architecture but x86-64, each of their calls gets it.
pub fn others_get_one()
    ensures law { OthersGetOne }
{
    other_verdict_is_of_each_call();
}

/// Which verdict they share, worked out by hand.
pub fn worked_others()
    ensures law { OthersWork }
{}

/// The least policy of some numbers, worked out by hand.
#[tactic(auto, using(crate::proofs::AllowingExamples::allowing_works))]
pub fn worked_allowing()
    ensures law { AllowingWorks }
{}

/// What is allowed of narrowed calls, worked out by hand.
#[tactic(auto, using(crate::proofs::AllowingExamples::narrowing_works))]
pub fn worked_narrowing()
    ensures law { NarrowingWorks }
{}

/// Whoever reads the least policy of some numbers finds that it allows the calls with these, and no others.
pub fn allowing_says()
    ensures law { AllowingSays }
{}

/// No number stands in it twice, and each has a verdict.
pub fn allowing_is_policy()
    ensures law { AllowingIsPolicy }
{}

/// Nothing is wrong with it, where no number is narrowed.
pub fn allowing_is_right()
    ensures law { AllowingIsRight }
{}

/// Its filter is not too long then, if there are not too many numbers.
pub fn allowing_fits()
    ensures law { AllowingFits }
{}

/// And each filter that is made of it allows the calls with these numbers, and no others.
pub fn allowing_makes_filters()
    ensures law { AllowingMakesFilters }
{}

/// So a filter that is made of the numbers of logs allows their calls, and no number that none of them has.
pub fn allowing_logs()
    ensures law { AllowingLogs }
{}

/// Each call of a log is allowed, whatever stands in what the log does not show of it.
#[tactic(auto, using(crate::proofs::Narrowed::logged_are_allowed))]
pub fn logged_are_allowed()
    ensures law { LoggedAreAllowed }
{}

/// No call is allowed whose number no log has.
#[tactic(auto, using(crate::proofs::Narrowed::no_others_are_allowed))]
pub fn no_others_are_allowed()
    ensures law { NoOthersAreAllowed }
{}

/// A narrowed call is allowed only with numbers that calls of a log have.
#[tactic(auto, using(crate::proofs::Narrowed::narrowed_are_seen))]
pub fn narrowed_are_seen()
    ensures law { NarrowedAreSeen }
{}
