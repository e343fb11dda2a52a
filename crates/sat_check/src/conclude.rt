//! How a run ends.

ghost use Rattle.std.specs.Prelude.{◌≡◌, ◌⊎◌, false, true, [], ◌∷◌, ℕ, List, IfOk, IfErr, OnOk};
ghost use Rattle.cnf_base.specs.Printing.{line_of};
ghost use Rattle.writers.specs.Lines.{Writes};
ghost use Rattle.report.specs.Lines.{fault_line, fault_status};
ghost use Rattle.sat_check.specs.Report.{Report, Outcome, concluded, is_cut_short, with_lines};
ghost use Rattle.sat_check.specs.Code.Writer.{IsFlushedOrFailed};
ghost use Rattle.sat_check.specs.Code.Writer.{LeavesWriter};
ghost use Rattle.report.specs.Subjects.{certificate_of};

use crate::Status;
use cnf_base::{Fault, OutOfMemory};
use report::lines::{fault_line, fault_status, sentence};
use report::{Line, Subject};
use std::alloc::Global;
use writers::{LineOut, Out};

/// Writes a line and the verdict's last line, and answers the status.
pub fn conclude<O: Out>(
    lines: &mut LineOut<O>,
    subject: Subject,
    line: Result<Line, OutOfMemory>,
    status: Status,
) -> Status
    ensures outcome { (text : List ℕ) → IfOk line (λ l. l ≡ text) →
        Outcome result lines.old.held lines.new.held
        (concluded (certificate_of subject) text status) }
    ensures status { (result ≡ status) ⊎ (result ≡ Status.OutOfMemory)
        ⊎ ((result ≡ Status.WriteFailed) × (lines.new.has_failed ≡ true)) }
    ensures writer { LeavesWriter result lines.old lines.new }
{
    let Ok(line) = line else {
        return give_up(lines);
    };
    if lines.line(line.bytes()).is_err() {
        return Status::WriteFailed;
    }
    if lines.line(sentence(subject, status)).is_err() {
        return Status::WriteFailed;
    }
    if lines.finish().is_err() {
        return Status::WriteFailed;
    }
    status
}

/// Tells of the first fault of the input of this name. Want of memory has no line.
pub fn break_off<O: Out>(
    alloc: Global,
    lines: &mut LineOut<O>,
    subject: Subject,
    name: &[u8],
    fault: Fault,
) -> Status
    ensures memory { fault ≡ Fault.OutOfMemory → (r : Report) →
        Outcome result lines.old.held lines.new.held r }
    ensures told { (fault ≡ Fault.OutOfMemory → ⊥) →
        Outcome result lines.old.held lines.new.held
        (concluded (certificate_of subject) (fault_line name.now fault) (fault_status fault)) }
    ensures gave_up { fault ≡ Fault.OutOfMemory → result ≡ Status.OutOfMemory }
    ensures read_failed { result ≡ Status.ReadFailed → fault ≡ Fault.ReadFailed }
    ensures write_failed { result ≡ Status.WriteFailed → lines.new.has_failed ≡ true }
    ensures writer { LeavesWriter result lines.old lines.new }
{
    match fault {
        Fault::OutOfMemory => give_up(lines),
        Fault::Text(_, _) | Fault::Binary(_, _) | Fault::ReadFailed => {
            conclude(
                lines,
                subject,
                fault_line(alloc, name, fault),
                fault_status(fault),
            )
        }
    }
}

/// Writes a line that others follow. Where that fails it answers the status.
pub fn write_line<O: Out>(
    lines: &mut LineOut<O>,
    line: Result<Line, OutOfMemory>,
) -> Result<(), Status>
    ensures written { OnOk result ((text : List ℕ) → IfOk line (λ l. l ≡ text) →
        Writes lines.old lines.new (line_of text)) }
    ensures ok { OnOk result
        ((lines.new.is_broken ≡ false) × (lines.new.has_failed ≡ lines.old.has_failed)) }
    ensures stopped { IfErr result (λ status. (text : List ℕ) (r : Report) →
        IfOk line (λ l. l ≡ text) →
        Outcome status lines.old.held lines.new.held (with_lines (text ∷ []) r)) }
    ensures status { IfErr result (λ status. (status ≡ Status.OutOfMemory)
        ⊎ ((status ≡ Status.WriteFailed) × (lines.new.has_failed ≡ true))) }
    ensures cut_short { IfErr result (λ status. is_cut_short status ≡ true) }
    ensures gave_up { IfErr result (λ status. status ≡ Status.OutOfMemory →
        IsFlushedOrFailed lines.new.is_flushed lines.new.has_failed) }
    ensures same_writer { lines.new.borrows ≡ lines.old.borrows }
{
    let Ok(line) = line else {
        return Err(give_up(lines));
    };
    if lines.line(line.bytes()).is_err() {
        return Err(Status::WriteFailed);
    }
    Ok(())
}

/// Ends without a further line where memory ran out. What the flush answers doesn't change that.
pub fn give_up<O: Out>(lines: &mut LineOut<O>) -> Status
    ensures status { result ≡ Status.OutOfMemory }
    ensures outcome { (r : Report) → Outcome Status.OutOfMemory lines.old.held lines.new.held r }
    ensures writer { LeavesWriter Status.OutOfMemory lines.old lines.new }
{
    let _ = lines.finish();
    Status::OutOfMemory
}
