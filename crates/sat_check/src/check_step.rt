//! One step of a proof, and its line.
//!
//! Lines are made in functions that are called, not inlined: most steps have none, and the frame of
//! each step would be filled with blank ones.

ghost use Rattle.std.specs.Prelude.{◌≡◌, ◌≢◌, ◌⊎◌, true, false, IfNone, IfSome};
ghost use Rattle.steps.specs.ProofSession.{is_over};
ghost use Rattle.theory.specs.Verdicts.{is_last};
ghost use Rattle.report.specs.Lines.{a_proof, refusal_line, steps_line};
ghost use Rattle.sat_check.specs.Report.{Report, Outcome, concluded};
ghost use Rattle.sat_check.specs.Code.Writer.{LeavesWriter};
ghost use Rattle.sat_check.specs.Code.Reach.{IsVerdict};
ghost use Rattle.sat_check.specs.Code.Checking.{Decides, GoesOn, IsRefused, Stops, IsTold, Traces};
ghost use Rattle.sat_check.specs.Code.Checking.{is_memory};

use crate::Status;
use crate::conclude::{conclude, give_up, write_line};
use proofs::StepBuf;
use report::Subject;
use report::lines::{refusal_line, steps_line, trace_line};
use std::alloc::Global;
use steps::{Accepted, ProofSession, Refusal};
use writers::{LineOut, Out};

/// Checks the step of this number, and writes its line where a trace is asked for. Where the check
/// ends with it, the verdict is written, and the status answered.
#[tactic(auto, using(crate::proofs::OutcomeLemmas::no_verdict))]
pub fn check_step<S: ProofSession, O: Out>(
    alloc: Global,
    trace: bool,
    session: &mut S,
    step: &StepBuf,
    number: u64,
    lines: &mut LineOut<O>,
) -> Option<Status>
    requires sound { is_over (S.shown session.old) ≡ false }
    requires whole { lines.old.is_broken ≡ false }
    ensures goes_on { IfNone result (GoesOn trace number (S.shown session.old)
        (S.shown session.new) step.now lines.old lines.new) }
    ensures stops { IfSome result (λ status. Stops trace number
        (S.shown session.old) step.now lines.old lines.new status) }
    ensures decided { IfSome result (λ status. IsVerdict status →
        Decides (S.shown session.old).state step.now) }
    ensures refused { IfSome result (λ status. status ≡ Status.NotVerified →
        IsRefused (S.shown session.old).state step.now) }
    ensures told { IfSome result (λ status. IsTold status lines.new) }
    ensures writer { IfSome result (λ status. LeavesWriter status lines.old lines.new) }
    ensures same_writer { lines.new.borrows ≡ lines.old.borrows }
{
    let word = match session.step(step) {
        Ok(word) => word,
        Err(refusal) => return Some(refuse(alloc, number, refusal, lines)),
    };
    if let Err(status) = write_trace(alloc, trace, number, word, lines) {
        return Some(status);
    }
    if is_last(word) {
        return Some(verify(alloc, number, session.peak(), lines));
    }
    None
}

// Writes the verdict on a proof of which this step, the last one, was accepted.
#[cold]
#[inline(never)]
fn verify<O: Out>(alloc: Global, number: u64, peak: u64, lines: &mut LineOut<O>) -> Status
    ensures outcome { Outcome result lines.old.held lines.new.held
        (concluded a_proof (steps_line number peak) Status.Verified) }
    ensures status { (result ≡ Status.Verified) ⊎ (result ≡ Status.OutOfMemory)
        ⊎ ((result ≡ Status.WriteFailed) × (lines.new.has_failed ≡ true)) }
    ensures writer { LeavesWriter result lines.old lines.new }
{
    conclude(
        lines,
        Subject::Proof,
        steps_line(alloc, number, peak),
        Status::Verified,
    )
}

// Writes the line of an accepted step, if a trace is asked for.
fn write_trace<O: Out>(
    alloc: Global,
    trace: bool,
    number: u64,
    word: Accepted,
    lines: &mut LineOut<O>,
) -> Result<(), Status>
    ensures { Traces trace number word lines.old lines.new result }
{
    if !trace {
        return Ok(());
    }
    write_trace_line(alloc, number, word, lines)
}

// Writes the line of an accepted step.
#[inline(never)]
fn write_trace_line<O: Out>(
    alloc: Global,
    number: u64,
    word: Accepted,
    lines: &mut LineOut<O>,
) -> Result<(), Status>
    ensures { Traces true number word lines.old lines.new result }
{
    write_line(lines, trace_line(alloc, number, word))
}

// Writes why a step was refused. A session that had no memory has nothing to say of it.
#[cold]
#[inline(never)]
fn refuse<O: Out>(alloc: Global, number: u64, refusal: Refusal, lines: &mut LineOut<O>) -> Status
    ensures memory { is_memory refusal ≡ true → (r : Report) →
        Outcome result lines.old.held lines.new.held r }
    ensures refused { is_memory refusal ≡ false →
        Outcome result lines.old.held lines.new.held
        (concluded a_proof (refusal_line number refusal) Status.NotVerified) }
    ensures told { IsTold result lines.new }
    ensures writer { LeavesWriter result lines.old lines.new }
{
    match refusal {
        Refusal::OutOfMemory => give_up(lines),
        _ => conclude(
            lines,
            Subject::Proof,
            refusal_line(alloc, number, refusal),
            Status::NotVerified,
        ),
    }
}

fn is_last(word: Accepted) -> bool
    ensures { result ≡ is_last word }
{
    matches!(word, Accepted::Empty)
}
