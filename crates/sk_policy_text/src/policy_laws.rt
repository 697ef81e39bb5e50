//! Laws of a policy's sentences together. No program calls these functions: the contract of each is the law.
ghost use Rattle.sk_policy_text.specs.PolicyOf.{SayOne};
ghost use Rattle.sk_policy_text.specs.WorkedPolicies.{WorkedExpectations, WorkedPolicies, WorkedPlaces, WorkedRefusals};
ghost use Rattle.sk_policy_text.specs.WorkedSizes.{WorkedSizes};
ghost use Rattle.sk_policy_text.specs.WorkedExpecting.{WorkedExpecting};
ghost use Rattle.sk_policy_text.specs.Expecting.{CompletedExpects};

/// A text in which no number stands twice says one thing of a call.
pub fn say_one()
    ensures law { SayOne }
{}

/// The definitions say of calls what small policies say that were read by hand, and what may not stand where it stands.
#[tactic(auto, using(crate::proofs::WorkedText::worked_policies, crate::proofs::WorkedText::worked_places))]
pub fn worked_policies()
    ensures says { WorkedPolicies }
    ensures places { WorkedPlaces }
{}

/// Where a text first says an expectation is as it was read by hand.
#[tactic(auto, using(crate::proofs::WorkedText::worked_expectations))]
pub fn worked_expectations()
    ensures law { WorkedExpectations }
{}

/// Refusals are told as it was written by hand.
#[tactic(auto, using(crate::proofs::WorkedText::worked_refusals))]
pub fn worked_refusals()
    ensures texts { WorkedRefusals }
{}

/// Small texts of expectations are completed, and expect of calls, as it was done by hand.
pub fn worked_expecting()
    ensures law { WorkedExpecting }
{}

/// The filter of a completed text answers what the text as it is written expects.
#[tactic(auto, using(crate::proofs::Completing::completed_expects))]
pub fn completed_expects()
    ensures law { CompletedExpects }
{}

/// The bounds of small policies are those that were counted by hand.
#[tactic(auto, using(crate::proofs::WorkedBounds::worked_sizes))]
pub fn worked_sizes()
    ensures sizes { WorkedSizes }
{}
