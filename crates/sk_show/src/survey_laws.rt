//! Laws on examples, and on the lines of a survey. No program calls these functions: the contract of each is the law.
ghost use Rattle.sk_show.specs.ExamplesLaws.{EndsAreMeanings, RunsEndOnce, ValuesComeFromOne, VerdictsComeFromTheLeast};
ghost use Rattle.sk_show.specs.LinesLaws.{SomeCallIsShown};
ghost use Rattle.sk_show.specs.NamesLaws.{NameIsOfEach, NoNameIsHidden, NamedHasARow};

/// A filter whose run ends with a value means that value.
pub fn ends_are_meanings()
    ensures law { EndsAreMeanings }
{}

/// A run ends at one place.
pub fn runs_end_once()
    ensures law { RunsEndOnce }
{}

/// A value comes from one filter, and from one place of it.
pub fn values_come_from_one()
    ensures law { ValuesComeFromOne }
{}

/// The filter that the verdict comes from is the one with the least pair of precedence and place.
pub fn verdicts_come_from_the_least()
    ensures law { VerdictsComeFromTheLeast }
{}

/// A line's name is right for each of its numbers, no call with a name hides in a line without one, and where all numbers
/// are told each such call has a line by itself.
pub fn names_are_right()
    ensures each { NameIsOfEach }
    ensures hidden { NoNameIsHidden }
    ensures row { NamedHasARow }
{}

/// Below a row with values a call is shown for one of them, where there is a filter.
#[tactic(auto, using(crate::proofs::ShownCalls::some_call_is_shown))]
pub fn some_call_is_shown()
    ensures law { SomeCallIsShown }
{}
