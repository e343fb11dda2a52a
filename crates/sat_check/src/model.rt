//! A check of a model, from bytes to bytes.

ghost use Rattle.std.specs.Prelude.{◌≡◌, true, Ok, None, IfOk, IfErr};
ghost use Rattle.cnf_base.specs.Stream.{tells_failure};
ghost use Rattle.cnf_base.specs.Code.Seen.{OfSeen};
ghost use Rattle.cnf_base.specs.Seen.{OfBothSeen, OneHasFailed};
ghost use Rattle.dimacs.specs.Claim.{claim_of, IsClaim, IsConsistent};
ghost use Rattle.dimacs.specs.Formula.{formula_of};
ghost use Rattle.sat_check.specs.FormulaReach.{ReadsNoFurtherThanFault};
ghost use Rattle.sat_check.specs.Report.{Outcome};
ghost use Rattle.sat_check.specs.Code.Writer.{LeavesWriter};
ghost use Rattle.sat_check.specs.ModelReport.{claim_report, model_report};
ghost use Rattle.sat_check.specs.ModelReport.{ChecksModel, ReadsFormulaNoFurther};
ghost use Rattle.sat_check.specs.ModelReport.{TellsModelFault, TellsUnmet};
ghost use Rattle.sat_check.specs.Reach.{TellsFault};
ghost use Rattle.sat_check.specs.Runs.{Runs, RunsModel};
ghost use Rattle.sat_check.specs.Theorem.{ShowsSatisfied};
ghost use Rattle.sat_check.specs.Code.Judging.{judged_report, ReadsToUnmet};

use crate::conclude::{break_off, conclude};
use crate::judge::judge;
use crate::judgement::Judgement;
use crate::{Checked, InputFault, Status};
use cnf_base::{Fault, In, Piece, Source};
use dimacs::{Model, read_claim};
use report::Subject;
use report::lines::{clauses_line, unmet_line};
use std::alloc::Global;
use writers::{LineOut, Out};

/// Reads a solver's output whole, then checks the model that it claims against a formula in DIMACS
/// CNF, clause by clause, and writes the report, flushed.
///
/// The formula isn't read where the output has a fault. Past the first clause that isn't satisfied
/// nothing is looked at, and no more than a piece of 65536 bytes was read.
pub fn run_model<F: In, M: In, O: Out>(
    alloc: Global,
    formula: &mut F,
    output: &mut M,
    out: &mut O,
) -> Status
    // The model was checked, and no more of the formula was read than that takes.
    ensures runs { Runs (F.shown formula.old) (F.shown formula.new)
        (M.shown output.old) (M.shown output.new)
        (O.has_failed out.old) (O.has_failed out.new) (O.is_flushed out.new) result (λ i j.
        ChecksModel i j (O.held out.old) (O.held out.new) result
        × ReadsFormulaNoFurther (claim_of j) i (F.shown formula.old) (F.shown formula.new)) }
    ensures satisfied { ShowsSatisfied (F.shown formula.old).left (M.shown output.old).left
        result (O.held out.old) (O.held out.new) }
{
    run_model_placed(alloc, formula, output, out).status
}

/// As [`run_model`], and tells what is wrong with an input.
pub fn run_model_placed<F: In, M: In, O: Out>(
    alloc: Global,
    formula: &mut F,
    output: &mut M,
    out: &mut O,
) -> Checked
    ensures runs { RunsModel (F.shown formula.old) (F.shown formula.new)
        (M.shown output.old) (M.shown output.new) (O.held out.old) (O.held out.new)
        (O.has_failed out.old) (O.has_failed out.new) (O.is_flushed out.new) result }
    ensures satisfied { ShowsSatisfied (F.shown formula.old).left (M.shown output.old).left
        result.status (O.held out.old) (O.held out.new) }
{
    let mut lines = LineOut::new(&mut *out);
    let checked = check_model(alloc, formula, output, &mut lines);
    let writer = lines.release();
    let _ = &*writer;
    checked
}

fn check_model<F: In, M: In, O: Out>(
    alloc: Global,
    formula: &mut F,
    output: &mut M,
    lines: &mut LineOut<O>,
) -> Checked
    // The claim of a verified model holds no complements.
    ensures report { OfBothSeen (F.shown formula.old) (F.shown formula.new)
        (M.shown output.old) (M.shown output.new) (λ i j.
        Outcome result.status lines.old.held lines.new.held (model_report i j)
        × (result.status ≡ Status.Verified → IfOk (claim_of j) IsConsistent)
        × ReadsFormulaNoFurther (claim_of j) i (F.shown formula.old) (F.shown formula.new)
        × TellsModelFault (claim_of j) (formula_of i) result) }
    ensures read_failed { result.status ≡ Status.ReadFailed →
        OneHasFailed (F.shown formula.new) (M.shown output.new) }
    ensures write_failed { result.status ≡ Status.WriteFailed → lines.new.has_failed ≡ true }
    ensures writer { LeavesWriter result.status lines.old lines.new }
{
    match claimed(alloc, output) {
        Ok(model) => check_formula(alloc, &model, formula, lines),
        Err(fault) => {
            let status = break_off(alloc, lines, Subject::Model, b"output", fault);
            Checked::by_fault(status, InputFault::Second(fault))
        }
    }
}

// The model that the output claims.
#[tactic(auto, using(crate::proofs::FormulaLemmas::seen_nothing))]
fn claimed<M: In>(alloc: Global, output: &mut M) -> Result<Model, Fault>
    ensures claims { OfSeen (M.shown output.old) (M.shown output.new)
        (λ j. IsClaim result (claim_of j)) }
    ensures consistent { IfOk result IsConsistent }
    ensures tells { IfErr result (λ f. f ≡ Fault.ReadFailed →
        tells_failure (M.shown output.new) ≡ true) }
{
    let piece = Piece::new(alloc)?;
    let (claim, rest) = read_claim(alloc, Source::over(piece, &mut *output));
    let _ = &*rest;
    claim
}

// The report of a formula, where the output has no fault.
fn check_formula<F: In, O: Out>(
    alloc: Global,
    model: &Model,
    formula: &mut F,
    lines: &mut LineOut<O>,
) -> Checked
    ensures report { OfSeen (F.shown formula.old) (F.shown formula.new) (λ i.
        Outcome result.status lines.old.held lines.new.held
        (claim_report (Ok model.now) (formula_of i))
        × ReadsToUnmet model.now i (F.shown formula.old) (F.shown formula.new)
        × TellsFault (formula_of i).fault None result
        × TellsUnmet model.now (formula_of i).clauses result
        × ReadsNoFurtherThanFault i (F.shown formula.old) (F.shown formula.new)) }
    ensures read_failed { result.status ≡ Status.ReadFailed →
        tells_failure (F.shown formula.new) ≡ true }
    ensures write_failed { result.status ≡ Status.WriteFailed → lines.new.has_failed ≡ true }
    ensures writer { LeavesWriter result.status lines.old lines.new }
{
    match judge(alloc, formula, model) {
        Ok(judgement) => {
            let status = conclude_judgement(alloc, judgement, lines);
            Checked::by_clause(status, judgement.unmet())
        }
        Err(fault) => {
            let status = break_off(alloc, lines, Subject::Model, b"formula", fault);
            Checked::by_fault(status, InputFault::Formula(fault))
        }
    }
}

fn conclude_judgement<O: Out>(alloc: Global, judgement: Judgement, lines: &mut LineOut<O>) -> Status
    ensures outcome { Outcome result lines.old.held lines.new.held (judged_report judgement) }
    ensures read { result ≡ Status.ReadFailed → ⊥ }
    ensures well_formed { result ≡ Status.Malformed → ⊥ }
    ensures write_failed { result ≡ Status.WriteFailed → lines.new.has_failed ≡ true }
    ensures writer { LeavesWriter result lines.old lines.new }
{
    match judgement {
        Judgement::Met(number) => {
            let line = clauses_line(alloc, number);
            conclude(lines, Subject::Model, line, Status::Verified)
        }
        Judgement::Unmet(number) => {
            let line = unmet_line(alloc, number);
            conclude(lines, Subject::Model, line, Status::NotVerified)
        }
    }
}
