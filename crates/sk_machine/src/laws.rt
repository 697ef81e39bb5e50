//! Laws on groups and sessions. No program calls these functions: the contract of each is the law.

ghost use Rattle.sk_machine.specs.laws.SessionLaws.{RegroupingKeepsRules, FoundingKeepsRules, EndKeepsRules};

/// A change of group or session keeps the rules of the world, and so does an end with the groups that it hangs up.
#[tactic(auto, using(crate::proofs::KeptLinks::kept_setpgid, crate::proofs::KeptLinks::kept_setsid))]
pub fn rules_are_kept()
    ensures regrouping { RegroupingKeepsRules }
    ensures founding { FoundingKeepsRules }
    ensures end { EndKeepsRules }
{}
