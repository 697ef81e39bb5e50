//! Laws on reports. The contract is the law; nothing here does anything when it runs.
ghost use Rattle.sk_run.specs.laws.ReportLaws.{DueIsPossible, EachTurnHappens, ReportsAreRuns};

/// The event that is due to whoever has the turn is possible, so no report tells of one that was not.
#[tactic(auto, using(crate::proofs::Happening::due_is_possible, crate::proofs::Happening::each_turn_happens))]
pub fn turns_happen()
    ensures possible { DueIsPossible }
    ensures report { EachTurnHappens }
{}

/// The turns of a report are a run of the machine, which is lawful, and its end tells how that leaves the world.
#[tactic(auto, using(crate::proofs::Running::reports_are_runs))]
pub fn reports_are_runs()
    ensures law { ReportsAreRuns }
{}
