//! Worked rows and comparisons, and what is said of all calls. No program calls these functions: the contract of each is the law.
ghost use Rattle.sk_when.specs.WorkedRows.{RowsWork};
ghost use Rattle.sk_when.specs.Telling.{FollowedRowsHaveVerdicts};
ghost use Rattle.sk_when.specs.Diffs.{HoldsOnEveryCall, FailsOnACall, FollowedIsDecided};
ghost use Rattle.sk_when.specs.WorkedDiffs.{CallsWork, DifferencesWork, ExpectationsWork, PartsWork};
ghost use Rattle.sk_when.specs.FillingLaws.{JoiningGivesBack, LinesAreWithin, FillingWorks};
ghost use Rattle.sk_when.specs.Lints.{CleanIsTrue, FollowedLintIsDecided, NowhereLooserIsTrue, SignsAreTold};
ghost use Rattle.sk_when.specs.WorkedLints.{ConcernsWork, SocketsWork, WordsWork};
ghost use Rattle.sk_when.specs.WorkedTexts.{ColoursWork, OrderWorks, FindingsWork};

/// What is told of a filter that compares a word again, and that has a path which no call takes.
pub fn worked_rows()
    ensures rows { RowsWork }
{}

/// Each line that is told of filters which are followed has a verdict, unless the steps of a row were used up.
pub fn followed_rows_have_verdicts()
    ensures law { FollowedRowsHaveVerdicts }
{}

/// Where it is found that the relation between two chains holds, it does on every call.
pub fn holds_on_every_call()
    ensures law { HoldsOnEveryCall }
{}

/// Where it is found that it fails, there is a call on which it does.
pub fn fails_on_a_call()
    ensures law { FailsOnACall }
{}

/// Of two chains that are followed one of these is found, unless the steps of a piece were used up.
pub fn followed_is_decided()
    ensures law { FollowedIsDecided }
{}

/// How calls, differences and parts are told, worked out by hand.
pub fn worked_differences()
    ensures calls { CallsWork }
    ensures differences { DifferencesWork }
    ensures expectations { ExpectationsWork }
    ensures parts { PartsWork }
{}

/// What is drawn and written, and what is found of several pieces, worked out by hand.
pub fn worked_texts()
    ensures colours { ColoursWork }
    ensures order { OrderWorks }
    ensures findings { FindingsWork }
{}

/// The lines of a condition joined give it again, and none is too long where a break is possible; and some worked out by hand.
pub fn filled_conditions()
    ensures joining { JoiningGivesBack }
    ensures within { LinesAreWithin }
    ensures rows { FillingWorks }
{}

/// Where `ask lint` tells nothing, no call gets a less strict verdict than the call that Linux takes it for; where nothing stricter is
/// counted either, calls that are the same one to Linux get the same verdict.
pub fn lint_tells_of_every_call()
    ensures looser { NowhereLooserIsTrue }
    ensures clean { CleanIsTrue }
{}

/// Filters that are followed are decided by it, unless steps were used up; and what is said of calls with the sign of an int alone is
/// not left out.
pub fn lint_leaves_nothing_out()
    ensures decided { FollowedLintIsDecided }
    ensures signs { SignsAreTold }
{}

/// A hole in a filter, what is told of parts, and how it is written, worked out by hand.
pub fn worked_lints()
    ensures sockets { SocketsWork }
    ensures concerns { ConcernsWork }
    ensures words { WordsWork }
{}
