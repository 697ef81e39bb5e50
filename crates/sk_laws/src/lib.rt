//! Laws on the process machine, and on what the end of a process does to groups, which stand on their definitions alone; and
//! runs of the machine that were worked out by hand. No program calls these functions: the contract of each is the law, and its
//! statement stands in `specs/`.
#![tactic(auto)]

pub mod worked;
pub mod world;

ghost use Rattle.sk_laws.specs.MachineLaws.{ImpossibleChangesNothing, PossibleHappens, RefusedChangesNothing, TrapForcesSigsys, KillEndsCaller, FailedChangesNothing, HaltHasStatus, CallKeepsRules, DeliveryKeepsRules, ResumptionKeepsRules, EventKeepsRules, RunKeepsRules, ReachedHasRules, EventMarksNobody, RunMarksNobody, NobodyIsMarked, InitTakesOrphans, OrphansGoToInit};
ghost use Rattle.sk_laws.specs.TellingLaws.{EndIsToldToParent, EndIsToldOnce};
ghost use Rattle.sk_laws.specs.TurnLaws.{NextIsTurn, NobodysTurn, RunnableHasEvent, IdleDoesNothing, EndIsFinal};
ghost use Rattle.sk_laws.specs.RunLaws.{RunsAreLawful};
ghost use Rattle.sk_laws.specs.AnyMachine.{HasMachineLaws};
ghost use Rattle.sk_laws.specs.ConfinementLaws.{EventIsConfined, ConfinementStays, LineageIsConfined};
ghost use Rattle.sk_laws.specs.FilterLaws.{EventKeepsAccepted, RunKeepsAccepted, AcceptedReturn, AcceptedAreBounded, FiltersInForceAreAccepted, StepsInForceAreBounded};
ghost use Rattle.sk_laws.specs.LineageLaws.{EventChangesAuthority, AuthorityIsOfLineage, LineageComesFromInit, EqualLineagesMayDoTheSame, LineageKeepsFilters, VerdictIsOfLineage, EqualLineagesAreJudgedAlike, PerformedMeetsNoRefusal};
ghost use Rattle.sk_laws.specs.HangingUpLaws.{EndKeepsRights, HangingUpKeepsAllElse, HangingUpEndsNobody, HangingUpKeepsZombies, EndWithoutStopped, OpeningGroupIsOrphaned};

/// An event that is not possible, and a call that is refused or fails, changes nothing; a call that a filter
/// traps or kills does what the action says, and no more.
pub fn refusals_change_nothing()
    ensures impossible { ImpossibleChangesNothing }
    ensures possible { PossibleHappens }
    ensures refused { RefusedChangesNothing }
    ensures trapped { TrapForcesSigsys }
    ensures killed { KillEndsCaller }
    ensures failed { FailedChangesNothing }
    ensures halt { HaltHasStatus }
{}

/// The rules of the world hold of every world that the system comes to.
pub fn rules_are_kept()
    ensures call { CallKeepsRules }
    ensures delivery { DeliveryKeepsRules }
    ensures resumption { ResumptionKeepsRules }
    ensures event { EventKeepsRules }
    ensures run { RunKeepsRules }
    ensures reached { ReachedHasRules }
{}

/// Where there are no subreapers no process is ever marked as one.
#[tactic(auto, using(crate::proofs::Marks::event_marks_nobody, crate::proofs::Marks::run_marks_nobody, crate::proofs::Marks::nobody_is_marked))]
pub fn nobody_is_marked()
    ensures event { EventMarksNobody }
    ensures run { RunMarksNobody }
    ensures reached { NobodyIsMarked }
{}

/// So orphans go to process 1 then, as if there were no such mark.
#[tactic(auto, using(crate::proofs::Marks::init_takes_orphans, crate::proofs::Marks::orphans_go_to_init))]
pub fn orphans_go_to_init()
    ensures unmarked { InitTakesOrphans }
    ensures reached { OrphansGoToInit }
{}

/// What a process may do is what its lineage says, whatever other processes did between.
pub fn authority_is_of_lineage()
    ensures event { EventChangesAuthority }
    ensures run { AuthorityIsOfLineage }
    ensures root { LineageComesFromInit }
    ensures equal { EqualLineagesMayDoTheSame }
{}

/// A lineage keeps every filter that it has attached, and its calls are judged by them and no others, alike for equal
/// lineages.
pub fn filters_stay_for_good()
    ensures kept { LineageKeepsFilters }
    ensures verdict { VerdictIsOfLineage }
    ensures equal { EqualLineagesAreJudgedAlike }
    ensures performed { PerformedMeetsNoRefusal }
{}

/// Every event leaves the filters in force accepted, and accepted filters return, each within its own length
/// and all within the path limit. From the opening on all filters in force have been accepted.
pub fn filters_in_force_are_valid()
    ensures event { EventKeepsAccepted }
    ensures run { RunKeepsAccepted }
    ensures returning { AcceptedReturn }
    ensures bounded { AcceptedAreBounded }
    ensures accepted { FiltersInForceAreAccepted }
    ensures steps { StepsInForceAreBounded }
{}

/// The end of a process is told to its parent, and once.
pub fn ends_are_told_once()
    ensures parent { EndIsToldToParent }
    ensures once { EndIsToldOnce }
{}

/// Where filters refuse kill(2), a process and all that come from it leave every other process alone.
pub fn confined_lineages_leave_others_alone()
    ensures event { EventIsConfined }
    ensures kept { ConfinementStays }
    ensures lineage { LineageIsConfined }
{}

/// The turn goes round among those that can run, the events that meet a need are possible and no others, and
/// where nobody can run nothing happens any more.
pub fn turns_go_to_the_runnable()
    ensures next { NextIsTurn }
    ensures nobody { NobodysTurn }
    ensures runnable { RunnableHasEvent }
    ensures idle { IdleDoesNothing }
    ensures end { EndIsFinal }
{}

/// What the laws say of any run, in a form that a kernel can promise of the runs that it makes.
pub fn runs_are_lawful()
    ensures law { RunsAreLawful }
{}

/// The machine of the definitions has the laws on authority that are said of any machine.
#[tactic(auto, using(crate::proofs::Machines::has_machine_laws))]
pub fn machine_has_its_laws()
    ensures laws { HasMachineLaws }
{}

/// Groups are hung up by signals alone: nobody gets rights by them, ends, or leaves its group, and where nobody is
/// stopped none is sent. Group 1 is orphaned as the system starts.
#[tactic(auto, using(crate::proofs::HangingUp::all_else_kept, crate::proofs::HangingUp::nobody_ends, crate::proofs::HangingUp::zombies_kept, crate::proofs::HangingUp::nobody_hung_up))]
pub fn hanging_up_sends_signals()
    ensures rights { EndKeepsRights }
    ensures all_else { HangingUpKeepsAllElse }
    ensures lives { HangingUpEndsNobody }
    ensures zombies { HangingUpKeepsZombies }
    ensures nobody { EndWithoutStopped }
    ensures opening { OpeningGroupIsOrphaned }
{}
