//! A check of a DRAT proof, from bytes to bytes. Each engine opens its reader itself: a trait for
//! it would have to name a type over a borrow, which the language does not have.

ghost use Rattle.theory.specs.Systems.{drat_system};
ghost use Rattle.std.specs.Prelude.{◌≡◌, [], false, IfSome};
ghost use Rattle.std.specs.FinMap as maps;
ghost use Rattle.theory.specs.Rules.{drat};
ghost use Rattle.steps.specs.Session.{fresh};
ghost use Rattle.sat_check.specs.Code.Checking.{RunsInto};
ghost use Rattle.sat_check.specs.Report.{Reports, drat_proof, rules_of};
ghost use Rattle.sat_check.specs.Runs.{Runs, RunsDrat, RunsProof, DratStepsVerify};
ghost use Rattle.sat_check.specs.Theorem.{ShowsUnsatisfiable};

use crate::check::check;
use crate::conclude::give_up;
use crate::{Checked, DratOptions, Status};
use cnf_base::{In, Piece, Source};
use proofs::{DratBinary, DratText};
use propagation::Propagate;
use std::alloc::Global;
use steps::DratSession;
use watch::Watch;
use writers::{LineOut, Out};

/// Reads a formula in DIMACS CNF whole, then checks a proof of it in DRAT, and writes the report,
/// flushed.
///
/// The proof isn't read where the formula has a fault or an empty clause. Past the step that
/// decides, or the first word or byte at fault, nothing is looked at, and no more than a piece of
/// 65536 bytes was read.
pub fn run_drat<F: In, P: In, O: Out>(
    alloc: Global,
    options: &DratOptions,
    formula: &mut F,
    proof: &mut P,
    out: &mut O,
) -> Status
    ensures reports { Runs (F.shown formula.old) (F.shown formula.new) (P.shown proof.old)
        (P.shown proof.new) (O.has_failed out.old) (O.has_failed out.new) (O.is_flushed out.new)
        result (λ i j. Reports (drat_system (rules_of options.now)) options.now.trace i
        (drat_proof options.now.binary j) (O.held out.old) (O.held out.new) result) }
    ensures runs { RunsProof (drat_system (rules_of options.now)) options.now.trace
        (drat_proof options.now.binary) (F.shown formula.old) (F.shown formula.new)
        (P.shown proof.old) (P.shown proof.new) (O.held out.old) (O.held out.new)
        (O.has_failed out.old) (O.has_failed out.new) (O.is_flushed out.new) result }
    ensures unsatisfiable { ShowsUnsatisfiable (F.shown formula.old).left result
        (O.held out.old) (O.held out.new) }
    ensures steps_verify { DratStepsVerify options.now (F.shown formula.old)
        (P.shown proof.old) (P.shown proof.new) result (O.held out.old) (O.held out.new) }
{
    run_drat_kept(alloc, options, formula, proof, out).0.status
}

/// As [`run_drat`], and tells why it ended so. It hands over the session that it checked in, if
/// there was memory for one.
pub(crate) fn run_drat_kept<F: In, P: In, O: Out>(
    alloc: Global,
    options: &DratOptions,
    formula: &mut F,
    proof: &mut P,
    out: &mut O,
) -> (Checked, Option<DratSession<Watch>>)
    ensures { RunsDrat options.now (F.shown formula.old) (F.shown formula.new)
        (P.shown proof.old) (P.shown proof.new) (O.held out.old) (O.held out.new)
        (O.has_failed out.old) (O.has_failed out.new) (O.is_flushed out.new) result.0 }
{
    let mut lines = LineOut::new(&mut *out);
    let mut session = session_of(alloc, options);
    let checked = match &mut session {
        Some(session) => check_with(alloc, *options, session, formula, proof, &mut lines),
        None => Checked::without_step(give_up(&mut lines)),
    };
    let writer = lines.release();
    let _ = &*writer;
    (checked, session)
}

// A session by two watched literals, if there is memory for one.
fn session_of(alloc: Global, options: &DratOptions) -> Option<DratSession<Watch>>
    ensures { IfSome result (λ session. session ≡ fresh (drat (rules_of options.now))) }
{
    match Watch::seeded(alloc, options.seed) {
        Ok(clauses) => Some(DratSession::new(clauses, options.rules())),
        Err(_) => None,
    }
}

/// As [`run_drat`], with a propagation of the caller's choice: it has no clause,
/// nothing is assumed, and no memory was refused to it.
pub fn run_drat_with<C: Propagate + Drop, F: In, P: In, O: Out>(
    alloc: Global,
    options: &DratOptions,
    clauses: C,
    formula: &mut F,
    proof: &mut P,
    out: &mut O,
) -> Status
    requires empty { (C.state clauses).live ≡ maps.empty }
    requires nothing_assumed { (C.state clauses).assumptions ≡ [] }
    requires none_refused { (C.state clauses).has_refused ≡ false }
    ensures reports { Runs (F.shown formula.old) (F.shown formula.new) (P.shown proof.old)
        (P.shown proof.new) (O.has_failed out.old) (O.has_failed out.new) (O.is_flushed out.new)
        result (λ i j. Reports (drat_system (rules_of options.now)) options.now.trace i
        (drat_proof options.now.binary j) (O.held out.old) (O.held out.new) result) }
    ensures runs { RunsProof (drat_system (rules_of options.now)) options.now.trace
        (drat_proof options.now.binary) (F.shown formula.old) (F.shown formula.new)
        (P.shown proof.old) (P.shown proof.new) (O.held out.old) (O.held out.new)
        (O.has_failed out.old) (O.has_failed out.new) (O.is_flushed out.new) result }
    ensures unsatisfiable { ShowsUnsatisfiable (F.shown formula.old).left result
        (O.held out.old) (O.held out.new) }
    ensures steps_verify { DratStepsVerify options.now (F.shown formula.old)
        (P.shown proof.old) (P.shown proof.new) result (O.held out.old) (O.held out.new) }
{
    let mut lines = LineOut::new(&mut *out);
    let mut session = DratSession::new(clauses, options.rules());
    let checked = check_with(alloc, *options, &mut session, formula, proof, &mut lines);
    let held = lines.release();
    let _ = &*held;
    checked.status
}

// The check in a session that has begun, of a proof in the form that was asked for.
fn check_with<C: Propagate + Drop, F: In, P: In, O: Out>(
    alloc: Global,
    options: DratOptions,
    session: &mut DratSession<C>,
    formula: &mut F,
    proof: &mut P,
    lines: &mut LineOut<O>,
) -> Checked
    requires fresh { session.old ≡ fresh (drat (rules_of options)) }
    requires whole { lines.old.is_broken ≡ false }
    ensures { RunsInto (drat (rules_of options)) options.trace (drat_proof options.binary)
        (F.shown formula.old) (F.shown formula.new) (P.shown proof.old) (P.shown proof.new)
        lines.old lines.new result }
{
    let Ok(piece) = Piece::new(alloc) else {
        return Checked::without_step(give_up(lines));
    };
    let trace = options.trace;
    if options.binary {
        let mut reader = DratBinary::new(Source::over(piece, &mut *proof));
        let checked = check(alloc, trace, formula, session, &mut reader, lines);
        let rest = reader.release();
        let _ = &*rest;
        checked
    } else {
        let mut reader = DratText::new(Source::over(piece, &mut *proof));
        let checked = check(alloc, trace, formula, session, &mut reader, lines);
        let rest = reader.release();
        let _ = &*rest;
        checked
    }
}
