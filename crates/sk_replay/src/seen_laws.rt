//! Laws of what the calls of logs show. No program calls these functions: the contract of each is the law.
ghost use Rattle.sk_replay.specs.Seen.{RisingAreAll, RisingRise};
ghost use Rattle.sk_replay.specs.WorkedSeen.{SeenWorks};

/// What calls show that were worked out by hand.
#[tactic(auto, using(crate::proofs::SeenExamples::seen_works))]
pub fn worked_seen()
    ensures law { SeenWorks }
{}

/// Numbers in rising order are those that were to be put in order, and no others.
#[tactic(auto, using(crate::proofs::SeenOrder::rising_are_all))]
pub fn rising_are_all()
    ensures law { RisingAreAll }
{}

/// Each of them is less than those behind it.
#[tactic(auto, using(crate::proofs::SeenOrder::rising_rise))]
pub fn rising_rise()
    ensures law { RisingRise }
{}
