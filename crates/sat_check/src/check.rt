//! A check of a proof under any rule and in any format.

ghost use Rattle.theory.specs.Verdicts.{system_of};
ghost use Rattle.std.specs.Prelude.{◌≡◌, [], true, false, List, None};
ghost use Rattle.cnf_base.specs.Literals.{Clause};
ghost use Rattle.cnf_base.specs.Stream.{Input, Along, tells_failure};
ghost use Rattle.cnf_base.specs.Seen.{Seen, IsSeen, OneHasFailed};
ghost use Rattle.dimacs.specs.Formula.{formula_of};
ghost use Rattle.theory.specs.Rules.{Rule, rule_of};
ghost use Rattle.sat_check.specs.FormulaReach.{ReadsNoFurtherThanFault};
ghost use Rattle.sat_check.specs.Report.{Report, Outcome, Checks, Reports};
ghost use Rattle.sat_check.specs.Code.Writer.{LeavesWriter};
ghost use Rattle.sat_check.specs.Code.Checking.{IsLoaded, LeavesProof};

use crate::check_proof::check_proof;
use crate::conclude::{break_off, conclude, write_line};
use crate::load::load;
use crate::{Checked, InputFault, Status};
use cnf_base::In;
use dimacs::Header;
use proofs::StepReader;
use report::Subject;
use report::lines::{formula_line, steps_line};
use std::alloc::Global;
use steps::ProofSession;
use writers::{LineOut, Out};

/// Reads a formula whole, then checks the steps of a proof of it, and writes the report, flushed.
pub fn check<F: In, S: ProofSession, R: StepReader, O: Out>(
    alloc: Global,
    trace: bool,
    formula: &mut F,
    session: &mut S,
    reader: &mut R,
    lines: &mut LineOut<O>,
) -> Checked
    requires unused { IsLoaded (rule_of (S.shown session.old).state) (S.shown session.old) [] }
    requires whole { lines.old.is_broken ≡ false }
    ensures report { (f : Seen (F.shown formula.old) (F.shown formula.new))
        × Along (R.stream reader.old) (R.stream reader.new) (λ j k. (i : Input) → IsSeen f i →
        Reports (system_of (rule_of (S.shown session.old).state)) trace i (R.to_come reader.old j)
        lines.old.held lines.new.held result.status
        × LeavesProof (rule_of (S.shown session.old).state) (formula_of i).fault
        (formula_of i).clauses (R.to_come reader.old j) (R.stream reader.old).reader
        (R.stream reader.new).reader k result
        × ReadsNoFurtherThanFault i (F.shown formula.old) (F.shown formula.new)) }
    ensures read_failed { result.status ≡ Status.ReadFailed →
        OneHasFailed (F.shown formula.new) (R.stream reader.new).reader }
    ensures write_failed { result.status ≡ Status.WriteFailed → lines.new.has_failed ≡ true }
    ensures writer { LeavesWriter result.status lines.old lines.new }
{
    match load(alloc, formula, session) {
        Ok(header) => check_loaded(alloc, trace, header, session, reader, lines),
        Err(fault) => {
            let status = break_off(alloc, lines, Subject::Proof, b"formula", fault);
            Checked::by_fault(status, InputFault::Formula(fault))
        }
    }
}

// The report of a formula without a fault, whose clauses were input.
#[tactic(auto, using(crate::proofs::ReportLemmas::loaded_open))]
fn check_loaded<S: ProofSession, R: StepReader, O: Out>(
    alloc: Global,
    trace: bool,
    header: Header,
    session: &mut S,
    reader: &mut R,
    lines: &mut LineOut<O>,
) -> Checked
    requires loaded { (rule : Rule) × (clauses : List Clause)
        × IsLoaded rule (S.shown session.old) clauses }
    requires whole { lines.old.is_broken ≡ false }
    ensures report { Along (R.stream reader.old) (R.stream reader.new)
        (λ j k. (rule : Rule) (clauses : List Clause) →
        IsLoaded rule (S.shown session.old) clauses →
        (r : Report) × Checks (system_of rule) trace header clauses (R.to_come reader.old j) r
        × Outcome result.status lines.old.held lines.new.held r
        × LeavesProof rule None clauses (R.to_come reader.old j) (R.stream reader.old).reader
        (R.stream reader.new).reader k result) }
    ensures read_failed { result.status ≡ Status.ReadFailed →
        tells_failure (R.stream reader.new).reader ≡ true }
    ensures write_failed { result.status ≡ Status.WriteFailed → lines.new.has_failed ≡ true }
    ensures writer { LeavesWriter result.status lines.old lines.new }
{
    if let Err(status) = write_line(lines, formula_line(alloc, header)) {
        return Checked::without_step(status);
    }
    if session.verified() {
        let line = steps_line(alloc, 0, session.peak());
        let status = conclude(lines, Subject::Proof, line, Status::Verified);
        return Checked::without_step(status);
    }
    check_proof(alloc, trace, session, reader, lines)
}
