//! A formula is judged by a model, clause by clause.

ghost use Rattle.std.specs.Prelude.{◌≡◌, true, IfErr};
ghost use Rattle.cnf_base.specs.Stream.{Along, tells_failure};
ghost use Rattle.cnf_base.specs.Code.Seen.{OfSeen};
ghost use Rattle.dimacs.specs.Formula.{formula_of};
ghost use Rattle.dimacs.specs.Reading.{clauses_to_come, ends_to_come};
ghost use Rattle.sat_check.specs.FormulaReach.{ReadsNoFurtherThanFault};
ghost use Rattle.sat_check.specs.ModelReport.{meets};
ghost use Rattle.sat_check.specs.Code.FormulaReach.{LeavesFault};
ghost use Rattle.sat_check.specs.Code.Judging.{Judges, LeavesUnmet, ReadsToUnmet};

use crate::judgement::Judgement;
use cnf_base::{Fault, In, Piece, Source};
use dimacs::{ClauseBuf, FormulaReader, Model};
use std::alloc::Global;

/// Reads a formula up to the first clause that the model doesn't meet. It stores no clause but that
/// at hand.
pub fn judge<F: In>(alloc: Global, formula: &mut F, model: &Model) -> Result<Judgement, Fault>
    ensures judges { OfSeen (F.shown formula.old) (F.shown formula.new) (λ i.
        Judges model.now result (formula_of i).clauses (formula_of i).fault
        × ReadsToUnmet model.now i (F.shown formula.old) (F.shown formula.new)
        × ReadsNoFurtherThanFault i (F.shown formula.old) (F.shown formula.new)) }
    ensures tells { IfErr result (λ f. f ≡ Fault.ReadFailed →
        tells_failure (F.shown formula.new) ≡ true) }
{
    let piece = Piece::new(alloc)?;
    match FormulaReader::open(Source::over(piece, &mut *formula)) {
        Ok(mut reader) => {
            let judged = judge_clauses(alloc, &mut reader, model);
            let rest = reader.release();
            let _ = &*rest;
            judged
        }
        Err(refused) => {
            let (fault, rest) = refused;
            let _ = &*rest;
            Err(fault)
        }
    }
}

// Judges the clauses of the formula in turn.
#[tactic(auto, using(crate::proofs::ModelLemmas::judging_start))]
fn judge_clauses<F: In>(
    alloc: Global,
    reader: &mut FormulaReader<F>,
    model: &Model,
) -> Result<Judgement, Fault>
    requires { reader.old.complete ≡ 0 }
    ensures judges { Along reader.old.stream reader.new.stream (λ i j.
        Judges model.now result (clauses_to_come reader.old i).clauses
        (clauses_to_come reader.old i).fault
        × LeavesUnmet model.now (clauses_to_come reader.old i).clauses
        (ends_to_come reader.old i) j
        × LeavesFault (clauses_to_come reader.old i).clauses (ends_to_come reader.old i) j) }
    ensures tells { IfErr result (λ f. f ≡ Fault.ReadFailed →
        tells_failure reader.new.stream.reader ≡ true) }
{
    let mut clause = ClauseBuf::new(alloc);
    let mut met = 0u64;
    while reader.next(&mut clause)? {
        let number = met + 1;
        if !meets(model, &clause) {
            return Ok(Judgement::Unmet(number));
        }
        met = number;
    }
    Ok(Judgement::Met(met))
}

// Whether the model has a literal of the clause.
fn meets(model: &Model, clause: &ClauseBuf) -> bool
    ensures { result ≡ meets model.now clause.now }
{
    clause.lits().iter().any(|lit| model.holds(*lit))
}
