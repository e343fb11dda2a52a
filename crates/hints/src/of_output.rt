//! What helps with a solver's output.

ghost use Rattle.std.specs.Prelude.{◌≡◌};
ghost use Rattle.hints.specs.Hints.{lines_hint, missing_hint, numbers_hint, other_file_hint};
ghost use Rattle.hints.specs.Hints.{output_hint, plain_output_hint, shown_hint};

use crate::evidence::Evidence;
use crate::hint::Hint;
use crate::kind::Kind;
use crate::of_formula::{decode_hint, is_proof};
use crate::table::{only_if, or_else};
use cnf_base::{Fault, TextFault};

/// With a fault of a solver's output.
pub(crate) fn output_hint(fault: Fault, shown: &Evidence) -> Option<Hint>
    ensures { result ≡ output_hint fault shown.now }
{
    match fault {
        // Its model is wrong, or there is none.
        Fault::Text(TextFault::NotClaimed | TextFault::Complement, _) => None,
        Fault::Text(kind, _) => shown_hint(kind, shown),
        _ => None,
    }
}

fn shown_hint(fault: TextFault, shown: &Evidence) -> Option<Hint>
    ensures { result ≡ shown_hint fault shown.now }
{
    let among = lines_hint(fault, shown.answer_among_others);
    let other = or_else(among, plain_output_hint(fault, shown));
    or_else(other_file_hint(shown.kind, shown.carriage_return), other)
}

// With another file.
fn other_file_hint(kind: Option<Kind>, carriage_return: bool) -> Option<Hint>
    ensures { result ≡ other_file_hint kind carriage_return }
{
    match kind {
        Some(Kind::Cnf) => Some(Hint::FormulaSecond),
        Some(Kind::MinisatResult) => only_if(!carriage_return, Hint::MinisatResult),
        Some(Kind::ClaspText) => Some(Hint::ClaspText),
        _ => decode_hint(kind),
    }
}

// With an answer among lines that no output has.
fn lines_hint(fault: TextFault, is_among_others: bool) -> Option<Hint>
    ensures { result ≡ lines_hint fault is_among_others }
{
    match fault {
        TextFault::BadLine => only_if(is_among_others, Hint::OtherLines),
        _ => None,
    }
}

fn plain_output_hint(fault: TextFault, shown: &Evidence) -> Option<Hint>
    ensures { result ≡ plain_output_hint fault shown.now }
{
    if is_proof(shown.kind, shown.deletes) {
        Some(Hint::ProofNotOutput)
    } else {
        or_else(numbers_hint(shown.kind), missing_hint(fault, shown.kind))
    }
}

// With lines of numbers.
fn numbers_hint(kind: Option<Kind>) -> Option<Hint>
    ensures { result ≡ numbers_hint kind }
{
    match kind {
        Some(Kind::LratText | Kind::DratText | Kind::Number) => Some(Hint::ModelLines),
        _ => None,
    }
}

// With an output that lacks something.
fn missing_hint(fault: TextFault, kind: Option<Kind>) -> Option<Hint>
    ensures { result ≡ missing_hint fault kind }
{
    match (fault, kind) {
        (TextFault::NoStatus, Some(Kind::Empty)) => Some(Hint::Empty),
        (TextFault::NoStatus, Some(Kind::Output)) => Some(Hint::NoStatusLine),
        (TextFault::UnterminatedModel, _) => Some(Hint::NoLastZero),
        _ => None,
    }
}
