//! A check of an LRAT proof, from bytes to bytes.

ghost use Rattle.theory.specs.Verdicts.{system_of};
ghost use Rattle.std.specs.Prelude.{◌≡◌, false};
ghost use Rattle.proofs.specs.Lrat.{lrat_steps};
ghost use Rattle.theory.specs.Rules.{lrat};
ghost use Rattle.steps.specs.Session.{fresh};
ghost use Rattle.sat_check.specs.Code.Checking.{RunsInto};
ghost use Rattle.sat_check.specs.Report.{Reports};
ghost use Rattle.sat_check.specs.Runs.{Runs, RunsLrat, RunsProof, LratStepsVerify};
ghost use Rattle.sat_check.specs.Theorem.{ShowsUnsatisfiable};

use crate::check::check;
use crate::conclude::give_up;
use crate::{Checked, LratOptions, Status};
use cnf_base::{In, Piece, Source};
use proofs::LratText;
use std::alloc::Global;
use steps::LratSession;
use writers::{LineOut, Out};

/// Reads a formula in DIMACS CNF whole, then checks a proof of it in LRAT, and writes the report,
/// flushed.
///
/// The proof isn't read where the formula has a fault or an empty clause. Past the step that
/// decides, or the first word or byte at fault, nothing is looked at, and no more than a piece of
/// 65536 bytes was read.
pub fn run_lrat<F: In, P: In, O: Out>(
    alloc: Global,
    options: &LratOptions,
    formula: &mut F,
    proof: &mut P,
    out: &mut O,
) -> Status
    ensures reports { Runs (F.shown formula.old) (F.shown formula.new) (P.shown proof.old)
        (P.shown proof.new) (O.has_failed out.old) (O.has_failed out.new) (O.is_flushed out.new)
        result (λ i j. Reports (system_of lrat) options.now.trace i (lrat_steps j)
        (O.held out.old) (O.held out.new) result) }
    ensures runs { RunsProof (system_of lrat) options.now.trace lrat_steps
        (F.shown formula.old) (F.shown formula.new) (P.shown proof.old) (P.shown proof.new)
        (O.held out.old) (O.held out.new) (O.has_failed out.old) (O.has_failed out.new)
        (O.is_flushed out.new) result }
    ensures unsatisfiable { ShowsUnsatisfiable (F.shown formula.old).left result
        (O.held out.old) (O.held out.new) }
    ensures steps_verify { LratStepsVerify (F.shown formula.old) (P.shown proof.old)
        (P.shown proof.new) result (O.held out.old) (O.held out.new) }
{
    run_lrat_kept(alloc, options, formula, proof, out).0.status
}

/// As [`run_lrat`], and tells why it ended so. It hands over the session that it checked in, if
/// there was memory for one.
pub(crate) fn run_lrat_kept<F: In, P: In, O: Out>(
    alloc: Global,
    options: &LratOptions,
    formula: &mut F,
    proof: &mut P,
    out: &mut O,
) -> (Checked, Option<LratSession>)
    ensures { RunsLrat options.now.trace (F.shown formula.old) (F.shown formula.new)
        (P.shown proof.old) (P.shown proof.new) (O.held out.old) (O.held out.new)
        (O.has_failed out.old) (O.has_failed out.new) (O.is_flushed out.new) result.0 }
{
    let mut lines = LineOut::new(&mut *out);
    let mut session = LratSession::new(alloc).ok();
    let checked = match &mut session {
        Some(session) => check_lrat(alloc, options.trace, session, formula, proof, &mut lines),
        None => Checked::without_step(give_up(&mut lines)),
    };
    let writer = lines.release();
    let _ = &*writer;
    (checked, session)
}

// The check in a session that has begun.
fn check_lrat<F: In, P: In, O: Out>(
    alloc: Global,
    trace: bool,
    session: &mut LratSession,
    formula: &mut F,
    proof: &mut P,
    lines: &mut LineOut<O>,
) -> Checked
    requires fresh { session.old ≡ fresh lrat }
    requires whole { lines.old.is_broken ≡ false }
    ensures { RunsInto lrat trace lrat_steps (F.shown formula.old) (F.shown formula.new)
        (P.shown proof.old) (P.shown proof.new) lines.old lines.new result }
{
    let Ok(piece) = Piece::new(alloc) else {
        return Checked::without_step(give_up(lines));
    };
    let mut reader = LratText::new(Source::over(piece, &mut *proof));
    let checked = check(alloc, trace, formula, session, &mut reader, lines);
    let rest = reader.release();
    let _ = &*rest;
    checked
}
