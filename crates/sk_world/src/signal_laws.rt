//! Laws on signals. No program calls these functions: the contract of each is the law.

ghost use Rattle.sk_world.specs.laws.SetMembers.{SetsAreTheirMembers};
ghost use Rattle.sk_world.specs.laws.WorkedSignals.{WorkedActions, WorkedGeneration, WorkedDelivery, WorkedCalls};
ghost use Rattle.sk_world.specs.laws.SignalNumbers.{SignalsHaveTheirNumbers, SixteenHandlersNest};

/// Each name has its number of signal(7).
#[tactic(auto, unfolding(crate::specs::SignalSet::signals_to))]
pub fn signals_have_their_numbers()
    ensures numbers { SignalsHaveTheirNumbers }
{}

/// As many handlers run inside one another as the frames of a process: sixteen.
pub fn sixteen_handlers_nest()
    ensures frames { SixteenHandlersNest }
{}

/// A set is what its members are, and each operation gives the members that it says.
pub fn sets_are_their_members()
    ensures members { SetsAreTheirMembers }
{}

/// The definitions give what was worked out by hand.
pub fn worked_signals()
    ensures actions { WorkedActions }
    ensures generation { WorkedGeneration }
    ensures delivery { WorkedDelivery }
    ensures calls { WorkedCalls }
{}
