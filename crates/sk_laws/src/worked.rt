//! Runs of the process machine that were worked out by hand. No program calls these functions: the contract
//! of each says that the definitions give what was worked out, which stands in `specs/`. And machines that are wrong,
//! which the laws on authority refuse by themselves, whatever the definitions of the calls say.

ghost use Rattle.sk_laws.specs.WorkedCalls.{WorkedCalls};
ghost use Rattle.sk_laws.specs.WorkedSignals.{WorkedSignals};
ghost use Rattle.sk_laws.specs.WorkedWaits.{WorkedWaits};
ghost use Rattle.sk_laws.specs.WorkedGroups.{WorkedGroups};
ghost use Rattle.sk_laws.specs.WorkedTurns.{WorkedTurns};
ghost use Rattle.sk_laws.specs.WorkedLineages.{WorkedLineages};
ghost use Rattle.sk_laws.specs.WorkedEdges.{WorkedEdges};
ghost use Rattle.sk_laws.specs.WorkedOrders.{WorkedOrders};
ghost use Rattle.sk_laws.specs.WorkedStates.{WorkedStates};
ghost use Rattle.sk_laws.specs.WorkedOrphans.{WorkedOrphans};
ghost use Rattle.sk_laws.specs.WorkedReapers.{WorkedReapers};
ghost use Rattle.sk_laws.specs.WorkedWidths.{WorkedWidths};
ghost use Rattle.sk_laws.specs.WorkedLimits.{WorkedLimits};
ghost use Rattle.sk_laws.specs.WrongMachines.{WrongsAreRefused};

/// The definitions give what was worked out by hand of filters, ids and programs.
#[tactic(auto, using(crate::proofs::CallRows::worked_calls))]
pub fn worked_calls()
    ensures law { WorkedCalls }
{}

/// The definitions give what was worked out by hand of signals.
#[tactic(auto, using(crate::proofs::SignalRows::worked_signals))]
pub fn worked_signals()
    ensures law { WorkedSignals }
{}

/// The definitions give what was worked out by hand of ends, zombies and waits.
#[tactic(auto, using(crate::proofs::WaitRows::worked_waits))]
pub fn worked_waits()
    ensures law { WorkedWaits }
{}

/// The definitions give what was worked out by hand of groups, sessions and signals to them.
#[tactic(auto, using(crate::proofs::GroupRows::worked_groups))]
pub fn worked_groups()
    ensures law { WorkedGroups }
{}

/// The definitions give what was worked out by hand of events that are not possible and of turns.
#[tactic(auto, using(crate::proofs::TurnRows::worked_turns))]
pub fn worked_turns()
    ensures law { WorkedTurns }
{}

/// The definitions give what was worked out by hand of lineages.
#[tactic(auto, using(crate::proofs::LineageRows::worked_lineages))]
pub fn worked_lineages()
    ensures law { WorkedLineages }
{}

/// The definitions give what was worked out by hand of signals, stops and waits where several rules meet.
#[tactic(auto, using(crate::proofs::EdgeRows::worked_edges))]
pub fn worked_edges()
    ensures law { WorkedEdges }
{}

/// The definitions give what was worked out by hand of groups, permissions, filters, lineages and turns where several
/// rules meet.
#[tactic(auto, using(crate::proofs::OrderRows::worked_orders))]
pub fn worked_orders()
    ensures law { WorkedOrders }
{}

/// The definitions give what was worked out by hand of what a call changes, and what it leaves.
#[tactic(auto, using(crate::proofs::StateRows::worked_states))]
pub fn worked_states()
    ensures law { WorkedStates }
{}

/// The definitions give what was worked out by hand of orphaned process groups.
#[tactic(auto, using(crate::proofs::OrphanRows::worked_orphans))]
pub fn worked_orphans()
    ensures law { WorkedOrphans }
{}

/// The definitions give what was worked out by hand of subreapers.
#[tactic(auto, using(crate::proofs::ReaperRows::worked_reapers))]
pub fn worked_reapers()
    ensures law { WorkedReapers }
{}

/// The definitions give what was worked out by hand of the widths of arguments.
#[tactic(auto, using(crate::proofs::WidthRows::worked_widths))]
pub fn worked_widths()
    ensures law { WorkedWidths }
{}

/// The definitions give what was worked out by hand of the limits on pids, processes and filters.
pub fn worked_limits()
    ensures law { WorkedLimits }
{}

/// Each wrong machine lacks the law that it breaks.
pub fn wrong_machines_are_refused()
    ensures law { WrongsAreRefused }
{}
