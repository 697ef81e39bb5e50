//! Laws on expressions, and worked examples. No program calls these functions: the contract of each is the law.
ghost use Rattle.sk_terms.specs.Constants.{MasksReadBack, PartsReadBack};
ghost use Rattle.sk_terms.specs.Expressions.{WordingsAreExact};
ghost use Rattle.sk_terms.specs.WorkedConstants.{ConstantsWork};
ghost use Rattle.sk_terms.specs.WorkedLines.{LinesWork};
ghost use Rattle.sk_terms.specs.WorkedTerms.{TermsWork};

/// What is said of a term is what it takes.
pub fn wordings_are_exact()
    ensures law { WordingsAreExact }
{}

/// The parts of a number, constants or not, are the number.
#[tactic(auto, using(crate::proofs::Parts::parts_read_back))]
pub fn parts_read_back()
    ensures law { PartsReadBack }
{}

/// What a mask is written as is the mask.
#[tactic(auto, using(crate::proofs::Parts::masks_read_back))]
pub fn masks_read_back()
    ensures law { MasksReadBack }
{}

/// Terms of the kinds that filters test, on a call, and in C.
pub fn worked_terms()
    ensures terms { TermsWork }
{}

/// A number that is asked for again, and two that no call has at once.
pub fn worked_lines()
    ensures lines { LinesWork }
{}

/// Masks and numbers by constants, and what stays a number.
#[tactic(auto, using(crate::proofs::WorkedConstants::constants_work))]
pub fn worked_constants()
    ensures constants { ConstantsWork }
{}
