//! Laws on the worlds of `sk_world` and how they change, and worlds that are worked out by hand. No program calls these
//! functions: the contract of each is the law.

ghost use Rattle.sk_laws.specs.WorkedWorlds.{WorkedForks, WorkedEnds, WorkedReapers, WorkedWaits, WorkedSignals};
ghost use Rattle.sk_laws.specs.ReaperLaws.{NewParentLives, WithoutSubreapers, NearestSubreaper, NewParentIsAncestor};
ghost use Rattle.sk_laws.specs.ChangeLaws.{SignalIsNotQueued, SignalTouches, ForceTouches, SignalKeepsAllElse, ForceKeepsAllElse, TellingTouches, ForkTouches, EndTouches, EndLeavesNoOrphan, EndHandsChildrenOn, EndLeavesZombie, EachZombieIsAnnounced, ReadyIsLowest, NoMatchHasNone, NotReadyHasMatch, ZombieIsToldOnce, ForkGivesChild, NumberIsNew, NumberIsNext, FreshIsNextFree, NextFreeIsUnique, SignalKeepsRights, ForceKeepsRights, ReparentKeepsRights, EndKeepsRights, TellingKeepsRights, ForkKeepsRights};

/// A change touches only those that it has to do with.
pub fn changes_are_local()
    ensures signal { SignalTouches }
    ensures force { ForceTouches }
    ensures telling { TellingTouches }
    ensures fork { ForkTouches }
    ensures end { EndTouches }
{}

/// A signal leaves every process its links, its ids, its filters and what it waits in: only its signals, its life
/// and its note may change, and of these a forced signal changes the signals alone. Nobody comes or goes.
pub fn signals_keep_all_else()
    ensures signal { SignalKeepsAllElse }
    ensures force { ForceKeepsAllElse }
{}

/// A signal that is sent again changes nothing.
pub fn signals_are_not_queued()
    ensures law { SignalIsNotQueued }
{}

/// The end of a process other than process 1 hands its children on, leaves nobody with it as the parent, and makes
/// it a zombie, unless its parent ignores SIGCHLD. The end of process 1 hands none on.
pub fn ends_hand_children_on()
    ensures no_orphan { EndLeavesNoOrphan }
    ensures children { EndHandsChildrenOn }
    ensures zombie { EndLeavesZombie }
    ensures each { EachZombieIsAnnounced }
{}

/// The children of a process that ends go to its nearest ancestor that is a subreaper, who lives, and to process 1 where
/// there is none.
pub fn orphans_go_to_the_nearest_subreaper()
    ensures lives { NewParentLives }
    ensures unmarked { WithoutSubreapers }
    ensures nearest { NearestSubreaper }
    ensures ancestor { NewParentIsAncestor }
{}

/// wait4(2) tells of the lowest child that is ready, of a zombie once, and of nobody where none is.
pub fn waiting_tells_the_lowest_once()
    ensures lowest { ReadyIsLowest }
    ensures no_match { NoMatchHasNone }
    ensures not_ready { NotReadyHasMatch }
    ensures once { ZombieIsToldOnce }
{}

/// The child of a fork is at the next number after the last one given that is nobody's pid, group or session.
pub fn fork_takes_a_new_number()
    ensures child { ForkGivesChild }
    ensures number { NumberIsNew }
    ensures next { NumberIsNext }
    ensures is_next_free { FreshIsNextFree }
    ensures unique { NextFreeIsUnique }
{}

/// What a process may do stays through every signal, end and wait, and goes on to its children.
pub fn rights_are_kept()
    ensures signal { SignalKeepsRights }
    ensures force { ForceKeepsRights }
    ensures reparent { ReparentKeepsRights }
    ensures end { EndKeepsRights }
    ensures telling { TellingKeepsRights }
    ensures fork { ForkKeepsRights }
{}

/// The definitions give what was worked out by hand.
pub fn worked_worlds()
    ensures forks { WorkedForks }
    ensures ends { WorkedEnds }
    ensures reapers { WorkedReapers }
    ensures waits { WorkedWaits }
    ensures signals { WorkedSignals }
{}
