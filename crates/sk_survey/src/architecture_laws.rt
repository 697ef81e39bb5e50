//! Laws on filters for one architecture, and on what is told of architectures. No program calls these functions: the contract
//! of each is the law.
ghost use Rattle.sk_survey.specs.ByArchitecture.{ChainsByArchitecture, WorkedCall};
ghost use Rattle.sk_survey.specs.ChainsFor.{ChainsForArchitectures};
ghost use Rattle.sk_survey.specs.Looks.{UnseenArchitectures};
ghost use Rattle.sk_survey.specs.AnswersByArchitecture.{OneVerdictIsOfEachCall};
ghost use Rattle.sk_survey.specs.Other.{OtherVerdictIsOfEachCall};
ghost use Rattle.sk_survey.specs.Settled.{OneVerdictIsTold};
ghost use Rattle.sk_survey.specs.Taken.{ChainsTakeCalls, ChainsWithoutUnread, TakenIsTakenSo, WorkedTaken};
ghost use Rattle.sk_survey.specs.Without.{ChainsWithout};
ghost use Rattle.sk_survey.specs.Worked.{WarnsWhereItIsWritten, WorkedNamesakes, WorkedNumbers};

/// What a chain for an architecture answers to a call of x86-64, the chain itself answers to the same call of that architecture.
pub fn chains_for_architectures()
    ensures law { ChainsForArchitectures }
{}

/// A chain that does not look at the architecture answers the same to a call of each.
pub fn unseen_architectures()
    ensures law { UnseenArchitectures }
{}

/// What a chain that looks for the architecture where the number is answers to a call with the architecture as its number, the
/// chain itself answers to the call.
pub fn chains_by_architecture()
    ensures law { ChainsByArchitecture }
{}

/// What a chain without some words answers to a call, the chain itself answers to the call with 0 in place of them.
pub fn chains_without()
    ensures law { ChainsWithout }
{}

/// What a chain without the words that Linux does not read answers to a call, the chain itself answers to the call that Linux takes
/// it for; it is enough to leave out those that a filter loads. And what Linux takes a call for, it takes for itself.
pub fn chains_take_calls()
    ensures unread { ChainsWithoutUnread }
    ensures loaded { ChainsTakeCalls }
    ensures again { TakenIsTakenSo }
{}

/// Calls are taken for what was worked out by hand.
pub fn worked_taken()
    ensures law { WorkedTaken }
{}

/// The definitions give what was worked out by hand.
pub fn worked_call()
    ensures law { WorkedCall }
{}

/// Where one verdict is told of an architecture, each of its calls gets it.
pub fn one_verdict_is_of_each_call()
    ensures law { OneVerdictIsOfEachCall }
{}

/// Where one verdict is told of the architectures that have no name, each of their calls gets it.
pub fn other_verdict_is_of_each_call()
    ensures law { OtherVerdictIsOfEachCall }
{}

/// Where each filter answers the calls of an architecture by it alone, the verdict that they get is told and written.
pub fn one_verdict_is_told()
    ensures law { OneVerdictIsTold }
{}

/// There is something to warn of exactly where a warning is written.
#[tactic(auto, using(crate::proofs::Worked::warns_where_it_is_written))]
pub fn warns_where_it_is_written()
    ensures law { WarnsWhereItIsWritten }
{}

/// The definitions take for calls of an architecture what was worked out by hand.
#[tactic(auto, using(crate::proofs::Worked::worked_numbers))]
pub fn worked_numbers()
    ensures law { WorkedNumbers }
{}

/// A call of another architecture has x86-64's number of its name, as it was worked out by hand.
pub fn worked_namesakes()
    ensures law { WorkedNamesakes }
{}
