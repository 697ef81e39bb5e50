//! Laws of profiles that are read. No program calls these functions: the contract of each is the law.
ghost use Rattle.sk_profile_json.specs.WorkedInspected.{WorkedInspected};
ghost use Rattle.sk_profile_json.specs.WorkedProfiles.{WorkedProfiles};
ghost use Rattle.sk_profile_json.specs.WorkedSlips.{WorkedSlips};
ghost use Rattle.sk_profile_json.specs.Wholes.{RulesAreGood};
ghost use Rattle.sk_profile_json.specs.PartingTexts.{NarrowMasksCompareLow, OperatorsAreRead};
ghost use Rattle.sk_profile_json.specs.WorkedPartings.{WorkedPartings};
ghost use Rattle.sk_profile_json.specs.Deciding.{DecidersDecide};
ghost use Rattle.sk_profile_json.specs.WorkedDeciding.{WorkedDeciding};
ghost use Rattle.sk_profile_json.specs.WorkedWriting.{WorkedWriting};
ghost use Rattle.sk_profile_json.specs.Lines.{LinesHaveEntries};
ghost use Rattle.sk_profile_json.specs.WorkedLines.{WorkedLines};

/// The definition gives the profiles and the faults that were worked out by hand.
pub fn worked_profiles()
    ensures law { WorkedProfiles }
{}

/// The slips of texts that are no JSON are those that were worked out by hand.
#[tactic(auto, using(crate::proofs::WorkedSlipRows::worked_slips))]
pub fn worked_slips()
    ensures law { WorkedSlips }
{}

/// The profiles in what docker prints of containers are those that were worked out by hand.
#[tactic(auto, using(crate::proofs::WorkedInspectedRows::worked_inspected))]
pub fn worked_inspected()
    ensures law { WorkedInspected }
{}

/// The rules of a profile that is read have conditions on six arguments, each on another one.
#[tactic(auto, using(crate::proofs::Good::rules_good))]
pub fn rules_are_good()
    ensures law { RulesAreGood }
{}

/// The entries that part calls, and what is said of them, are those that were worked out by hand.
#[tactic(auto, using(crate::proofs::PartingRows::worked_partings))]
pub fn worked_partings()
    ensures law { WorkedPartings }
{}

/// The operator that is named of a comparison is read as that comparison.
pub fn operators_are_read()
    ensures law { OperatorsAreRead }
{}

/// By the mask that is told, numbers are compared as their lower halves were.
#[tactic(auto, using(crate::proofs::Narrowing::masks_compare_low))]
pub fn narrow_masks_compare_low()
    ensures law { NarrowMasksCompareLow }
{}

/// What decides on calls is what was worked out by hand.
#[tactic(auto, using(crate::proofs::WorkedDecidingRows::worked_deciding))]
pub fn worked_deciding()
    ensures law { WorkedDeciding }
{}

/// What of a profile decides on a call says what the profile says of it.
#[tactic(auto, using(crate::proofs::Deciders::deciders_decide))]
pub fn deciders_decide()
    ensures law { DecidersDecide }
{}

/// The texts of profiles are those that were worked out by hand.
#[tactic(auto, using(crate::proofs::WorkedWritingRows::worked_writing))]
pub fn worked_writing()
    ensures law { WorkedWriting }
{}

/// The lines of entries are those that were worked out by hand.
#[tactic(auto, using(crate::proofs::WorkedLineRows::worked_lines))]
pub fn worked_lines()
    ensures law { WorkedLines }
{}

/// In the line of an entry an object begins that is read as the entry.
#[tactic(auto, using(crate::proofs::Places::lines_have_entries))]
pub fn lines_have_entries()
    ensures law { LinesHaveEntries }
{}
