//! Laws about the definitions. The functions do nothing; their contracts are what is proved.
ghost use Rattle.std.specs.Prelude.{◌≡◌, ◌↔◌, List, Some, None};
ghost use Rattle.sk_insn.specs.declared.insn.Insn.{Insn};
ghost use Rattle.sk_filter.specs.declared.fault.CheckFault.{CheckFault};
ghost use Rattle.sk_filter.specs.Valid.{IsValid, IsFirstFault};
ghost use Rattle.sk_filter.specs.FirstFault.{first_fault};
ghost use Rattle.sk_filter.specs.WorkedPrograms.{WorkedPrograms};
ghost use Rattle.sk_filter.specs.MeaningLaws.{SkipDrops, StepsWithinLength, ValidReturns};
ghost use Rattle.sk_filter.specs.Architectures.{ArchitecturesAreConstants};
ghost use Rattle.sk_filter.specs.WorkedMeanings.{WorkedMeanings};
ghost use Rattle.sk_filter.specs.ChainLaws.{VerdictIsLeast, LimitBoundsSteps, OnePassFindsTheFirst};
ghost use Rattle.sk_filter.specs.WorkedVerdicts.{WorkedVerdicts};

/// The first fault as a function is the first fault, and no program has two.
pub fn one_first_fault()
    ensures valid { (insns : List Insn) → (first_fault insns ≡ None) ↔ IsValid insns }
    ensures first { (insns : List Insn) (fault : CheckFault) →
        (first_fault insns ≡ Some fault) ↔ IsFirstFault insns fault }
{}

/// What the definitions say of worked programs.
pub fn worked_programs()
    ensures { WorkedPrograms }
{}

/// To jump over instructions is to drop them.
#[tactic(auto, using(crate::proofs::Meanings::skip_drops))]
pub fn skip_drops()
    ensures law { SkipDrops }
{}

/// A filter that returns has executed at least one instruction, and none of them twice.
#[tactic(auto, using(crate::proofs::Meanings::steps_within))]
pub fn steps_within_length()
    ensures law { StepsWithinLength }
{}

/// Filters mean what was worked out by hand.
#[tactic(auto, using(crate::proofs::Rows::worked_meanings))]
pub fn worked_meanings()
    ensures law { WorkedMeanings }
{}

/// A valid filter returns on every call, within its own length.
#[tactic(auto, using(crate::proofs::ValidMeanings::valid_returns))]
pub fn valid_returns()
    ensures law { ValidReturns }
{}

/// A valid filter means to a call what the filter that loads its architecture as a constant means to it as a call of
/// x86-64.
#[tactic(auto, using(crate::proofs::Architectures::architectures_are_constants))]
pub fn architectures_are_constants()
    ensures law { ArchitecturesAreConstants }
{}

/// The verdict is the value with the least pair of precedence and place.
#[tactic(auto, using(crate::proofs::Verdicts::verdict_of_least))]
pub fn verdict_is_least()
    ensures law { VerdictIsLeast }
{}

/// The path limit bounds the instructions that a chain executes.
#[tactic(auto, using(crate::proofs::Bounds::bounded))]
pub fn limit_bounds_steps()
    ensures law { LimitBoundsSteps }
{}

/// To go through the values once, the newest first, finds the first of them.
#[tactic(auto, using(crate::proofs::Verdicts::preceding_of_none))]
pub fn one_pass_finds_the_first()
    ensures law { OnePassFindsTheFirst }
{}

/// Verdicts are what was worked out by hand.
#[tactic(auto, using(crate::proofs::VerdictRows::worked_verdicts))]
pub fn worked_verdicts()
    ensures law { WorkedVerdicts }
{}
