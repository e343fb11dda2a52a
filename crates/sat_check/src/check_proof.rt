//! A proof, step by step.

ghost use Rattle.std.specs.Prelude.{◌≡◌, true, false};
ghost use Rattle.cnf_base.specs.Stream.{Along, tells_failure};
ghost use Rattle.sat_check.specs.Report.{Report, Outcome};
ghost use Rattle.sat_check.specs.Code.Writer.{LeavesWriter};
ghost use Rattle.sat_check.specs.Code.Checking.{IsOpen, Rest, LeavesRest};

use crate::check_step::check_step;
use crate::conclude::{break_off, conclude};
use crate::{Checked, InputFault, Status};
use proofs::{StepBuf, StepReader};
use report::Subject;
use report::lines::end_line;
use std::alloc::Global;
use steps::ProofSession;
use writers::{LineOut, Out};

/// Takes steps up to the one that decides, or to the proof's end, and writes the rest of the
/// report.
pub fn check_proof<S: ProofSession, R: StepReader, O: Out>(
    alloc: Global,
    trace: bool,
    session: &mut S,
    reader: &mut R,
    lines: &mut LineOut<O>,
) -> Checked
    requires open { IsOpen (S.shown session.old) }
    requires whole { lines.old.is_broken ≡ false }
    ensures report { Along (R.stream reader.old) (R.stream reader.new) (λ i j.
        (r : Report) × Rest trace (S.shown session.old).state 0 (S.shown session.old).peak
        (R.to_come reader.old i) r × Outcome result.status lines.old.held lines.new.held r
        × LeavesRest (S.shown session.old) (R.to_come reader.old i) j result) }
    ensures read_failed { result.status ≡ Status.ReadFailed →
        tells_failure (R.stream reader.new).reader ≡ true }
    ensures write_failed { result.status ≡ Status.WriteFailed → lines.new.has_failed ≡ true }
    ensures writer { LeavesWriter result.status lines.old lines.new }
{
    let mut step = StepBuf::new(alloc);
    let mut accepted = 0u64;
    loop {
        match reader.next(&mut step) {
            Ok(true) => {
                let number = accepted.saturating_add(1);
                let literal_lost = session.has_lost_literal();
                if let Some(status) = check_step(alloc, trace, session, &step, number, lines) {
                    return Checked::by_step(status, reader.step_end(), literal_lost);
                }
                accepted = number;
            }
            Ok(false) => {
                let status = conclude(lines, Subject::Proof, end_line(alloc), Status::NotVerified);
                return Checked::without_step(status);
            }
            Err(fault) => {
                let status = break_off(alloc, lines, Subject::Proof, b"proof", fault);
                return Checked::by_fault(status, InputFault::Second(fault));
            }
        }
    }
}
