//! Laws on profiles, and on the code of their filters. No program calls these functions: the contract of each is the law.
ghost use Rattle.sk_profile.specs.Means.{CodeMeansSections, SectionsAreKnown};
ghost use Rattle.sk_profile.specs.CodeRows.{CutsSayTheSame};
ghost use Rattle.sk_profile.specs.WorkedCode.{WorkedCode};
ghost use Rattle.sk_profile.specs.WorkedNumbers.{WorkedNumbers};

/// The code of sections answers to every call what they say.
pub fn code_means_sections()
    ensures law { CodeMeansSections }
{}

/// Wherever a tree cuts the rows, it says what they say.
pub fn cuts_say_the_same()
    ensures law { CutsSayTheSame }
{}

/// Linux sees of each number of x86-64 whose calls its section allows without asking for an argument that all its calls are allowed.
#[tactic(auto, using(crate::proofs::Knowing::sections_are_known))]
pub fn sections_are_known()
    ensures law { SectionsAreKnown }
{}

/// The definition writes what was worked out by hand.
#[tactic(auto, using(crate::proofs::WorkedCode::worked_code))]
pub fn worked_code()
    ensures law { WorkedCode }
{}

/// The definition says of numbers what was worked out by hand.
#[tactic(auto, using(crate::proofs::Worked::worked_numbers))]
pub fn worked_numbers()
    ensures law { WorkedNumbers }
{}
