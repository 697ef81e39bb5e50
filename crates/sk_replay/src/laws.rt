//! Laws of the calls that words stand for. No program calls these functions: the contract of each is the law.
ghost use Rattle.sk_replay.specs.LoggedLaws.{NumbersAreMade, NumbersRise};
ghost use Rattle.sk_replay.specs.WorkedLogged.{WorkedLogged};
ghost use Rattle.sk_replay.specs.WorkedSince.{WorkedSince};
ghost use Rattle.sk_replay.specs.WorkedWords.{WorkedWords};
ghost use Rattle.sk_replay.specs.WorkedArguments.{WorkedArguments};
ghost use Rattle.sk_replay.specs.WorkedCalls.{WorkedCalls};
ghost use Rattle.sk_replay.specs.WorkedLines.{WorkedLines};
ghost use Rattle.sk_replay.specs.WorkedRecords.{WorkedRecords};
ghost use Rattle.sk_replay.specs.Judging.{VerdictsAreOfAll};

/// The definition gives the calls and the faults that were worked out by hand.
#[tactic(auto, using(crate::proofs::WordExamples::worked_words))]
pub fn worked_words()
    ensures law { WorkedWords }
{}

/// The definition gives the arguments that were worked out by hand.
#[tactic(auto, using(crate::proofs::Examples::worked_arguments))]
pub fn worked_arguments()
    ensures law { WorkedArguments }
{}

/// The definition gives the calls of architectures that were worked out by hand.
#[tactic(auto, using(crate::proofs::Examples::worked_calls))]
pub fn worked_calls()
    ensures law { WorkedCalls }
{}

/// What lines on modes and audit records say, as it was worked out by hand.
pub fn worked_lines()
    ensures law { WorkedLines }
{}

/// The records of the kernel and the texts of their actions, as they were worked out by hand.
pub fn worked_records()
    ensures law { WorkedRecords }
{}

/// A verdict that is told of a call is that of every call that the log may mean.
#[tactic(auto, using(crate::proofs::Undecided::verdicts_are_of_all))]
pub fn verdicts_are_of_all()
    ensures law { VerdictsAreOfAll }
{}

/// The numbers of the calls of logs that were worked out by hand.
#[tactic(auto, using(crate::proofs::Examples::worked_logged))]
pub fn worked_logged()
    ensures law { WorkedLogged }
{}

/// A number is among those of the calls of logs where a line of a log is a call with it, and only there.
#[tactic(auto, using(crate::proofs::Logging::numbers_are_made))]
pub fn numbers_are_made()
    ensures law { NumbersAreMade }
{}

/// Each of them is less than those behind it.
#[tactic(auto, using(crate::proofs::Logging::numbers_rise))]
pub fn numbers_rise()
    ensures law { NumbersRise }
{}

/// The lines of logs from under a filter, as they were worked out by hand.
pub fn worked_since()
    ensures law { WorkedSince }
{}
