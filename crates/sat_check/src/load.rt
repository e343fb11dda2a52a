//! A formula goes into a session, clause by clause.

ghost use Rattle.std.specs.Prelude.{◌≡◌, true, [], IfErr};
ghost use Rattle.cnf_base.specs.Stream.{Along, tells_failure};
ghost use Rattle.cnf_base.specs.Code.Seen.{OfSeen};
ghost use Rattle.dimacs.specs.Formula.{formula_of};
ghost use Rattle.dimacs.specs.Reading.{clauses_to_come, ends_to_come};
ghost use Rattle.theory.specs.Rules.{rule_of};
ghost use Rattle.sat_check.specs.FormulaReach.{ReadsNoFurtherThanFault};
ghost use Rattle.sat_check.specs.Code.Checking.{IsLoaded, Loads, LoadsBody};
ghost use Rattle.sat_check.specs.Code.FormulaReach.{LeavesFault};

use cnf_base::{Fault, In, Piece, Source};
use dimacs::{ClauseBuf, FormulaReader, Header};
use std::alloc::Global;
use steps::ProofSession;

/// Reads a formula whole, and inputs its clauses. The answer is its header.
pub fn load<F: In, S: ProofSession>(
    alloc: Global,
    formula: &mut F,
    session: &mut S,
) -> Result<Header, Fault>
    requires { IsLoaded (rule_of (S.shown session.old).state) (S.shown session.old) [] }
    ensures loads { OfSeen (F.shown formula.old) (F.shown formula.new) (λ i.
        Loads (rule_of (S.shown session.old).state) (S.shown session.new) result (formula_of i)
        × ReadsNoFurtherThanFault i (F.shown formula.old) (F.shown formula.new)) }
    ensures tells { IfErr result (λ f. f ≡ Fault.ReadFailed →
        tells_failure (F.shown formula.new) ≡ true) }
{
    let piece = Piece::new(alloc)?;
    match FormulaReader::open(Source::over(piece, &mut *formula)) {
        Ok(mut reader) => {
            let header = reader.header();
            let loaded = load_clauses(alloc, &mut reader, session);
            let rest = reader.release();
            let _ = &*rest;
            loaded?;
            Ok(header)
        }
        Err(refused) => {
            let (fault, rest) = refused;
            let _ = &*rest;
            Err(fault)
        }
    }
}

// Inputs all clauses of the formula.
#[tactic(auto, using(crate::proofs::FormulaLemmas::loading_start))]
fn load_clauses<F: In, S: ProofSession>(
    alloc: Global,
    reader: &mut FormulaReader<F>,
    session: &mut S,
) -> Result<(), Fault>
    requires first { reader.old.complete ≡ 0 }
    requires unused { IsLoaded (rule_of (S.shown session.old).state) (S.shown session.old) [] }
    ensures loads { Along reader.old.stream reader.new.stream
        (λ i j. LoadsBody (rule_of (S.shown session.old).state) (S.shown session.new) result
        (clauses_to_come reader.old i)
        × LeavesFault (clauses_to_come reader.old i).clauses (ends_to_come reader.old i) j) }
    ensures tells { IfErr result (λ f. f ≡ Fault.ReadFailed →
        tells_failure reader.new.stream.reader ≡ true) }
{
    let mut clause = ClauseBuf::new(alloc);
    while reader.next(&mut clause)? {
        if session.input(clause.lits()).is_err() {
            return Err(Fault::OutOfMemory);
        }
    }
    Ok(())
}
