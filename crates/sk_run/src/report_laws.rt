//! Reports that were worked out by hand. No program calls the function: its contract is the law.
ghost use Rattle.sk_run.specs.laws.WorkedReports.{WorkedReports};

/// The definitions give the reports that were worked out.
#[tactic(auto, using(crate::proofs::ReportRows::worked_reports))]
pub fn worked_reports()
    ensures law { WorkedReports }
{}
