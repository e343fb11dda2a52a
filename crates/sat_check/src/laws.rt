//! The law that a formula and a proof have at most one report.
//!
//! The function does nothing: its contract is the theorem.

ghost use Rattle.sat_check.specs.Report.{ReportsAreUnique};

/// A formula and a proof have at most one report.
#[tactic(auto, using(crate::proofs::ReportLemmas::reports_unique))]
pub fn reports_are_unique()
    ensures { ReportsAreUnique }
{}
