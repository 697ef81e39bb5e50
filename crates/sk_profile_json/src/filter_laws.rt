//! Laws of profiles' files. No program calls these functions: the contract of each is the law.
ghost use Rattle.sk_profile_json.specs.WorkedFiles.{WorkedFiles};

/// The definitions give what was worked out by hand.
#[tactic(auto, using(crate::proofs::Worked::worked_files))]
pub fn worked_files()
    ensures law { WorkedFiles }
{}
