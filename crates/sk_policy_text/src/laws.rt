//! Laws of a policy's text. No program calls these functions: the contract of each is the law.
ghost use Rattle.sk_policy_text.specs.RoundTrip.{CasesComeBack, ElsesComeBack, HeadsComeBack, NumbersComeBack, RowsComeBack, VerdictsComeBack};
ghost use Rattle.sk_policy_text.specs.WorkedWords.{WorkedWords};
ghost use Rattle.sk_policy_text.specs.WorkedSentences.{WorkedSentences, WrongSentences};

/// The definition cuts lines and texts as it was done by hand.
#[tactic(auto, using(crate::proofs::Examples::worked_words))]
pub fn worked_words()
    ensures law { WorkedWords }
{}

/// The definition gives what sentences say, and the faults of wrong ones, as they were read by hand.
#[tactic(auto, using(crate::proofs::Examples::worked_sentences, crate::proofs::Examples::wrong_sentences))]
pub fn worked_sentences()
    ensures right { WorkedSentences }
    ensures wrong { WrongSentences }
{}

/// The text of a verdict with a named action is read as that verdict.
#[tactic(auto, using(crate::proofs::Returning::verdicts_come_back))]
pub fn verdicts_come_back()
    ensures law { VerdictsComeBack }
{}

/// The numbers of a row, with the name of a single one, are read as those numbers.
#[tactic(auto, using(crate::proofs::Numbering::numbers_come_back))]
pub fn numbers_come_back()
    ensures law { NumbersComeBack }
{}

/// The line of a row with one verdict is read as that row, and so is that of a row whose cases follow.
#[tactic(auto, using(crate::proofs::Whole::rows_come_back, crate::proofs::Whole::heads_come_back))]
pub fn rows_come_back()
    ensures rows { RowsComeBack }
    ensures heads { HeadsComeBack }
{}

/// The lines of cases are read as these cases, and so is the line of the last one.
#[tactic(auto, using(crate::proofs::Telling::cases_come_back, crate::proofs::Telling::elses_come_back))]
pub fn cases_come_back()
    ensures cases { CasesComeBack }
    ensures last { ElsesComeBack }
{}
