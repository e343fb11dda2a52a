//! What helps with the formula, and with either input.

ghost use Rattle.std.specs.Prelude.{◌≡◌};
ghost use Rattle.hints.specs.Hints.{decode_hint, exchange_hint, formula_hint, header_hint};
ghost use Rattle.hints.specs.Hints.{header_kind_hint, is_proof};

use crate::evidence::Evidence;
use crate::hint::Hint;
use crate::kind::Kind;
use crate::table::only_if;
use cnf_base::{Fault, TextFault};
use command_line::Tool;

/// With a fault of the formula.
pub(crate) fn formula_hint(tool: Tool, fault: Fault, shown: &Evidence) -> Option<Hint>
    ensures { result ≡ formula_hint tool fault shown.now }
{
    match fault {
        Fault::Text(TextFault::BadHeader, _) => header_hint(tool, shown),
        Fault::Text(TextFault::BadToken, _) => only_if(shown.satlib_end, Hint::Satlib),
        _ => None,
    }
}

fn header_hint(tool: Tool, shown: &Evidence) -> Option<Hint>
    ensures { result ≡ header_hint tool shown.now }
{
    if is_proof(shown.kind, shown.deletes) {
        Some(exchange_hint(tool))
    } else {
        header_kind_hint(shown.kind)
    }
}

// With a proof that was named as the formula. For model-check the second input was read already, so
// the names weren't exchanged.
fn exchange_hint(tool: Tool) -> Hint
    ensures { result ≡ exchange_hint tool }
{
    match tool {
        Tool::Drat | Tool::Lrat => Hint::ProofFirst,
        Tool::Model => Hint::ProofNotFormula,
    }
}

fn header_kind_hint(kind: Option<Kind>) -> Option<Hint>
    ensures { result ≡ header_kind_hint kind }
{
    match kind {
        Some(Kind::Wcnf) => Some(Hint::Wcnf),
        Some(Kind::Opb) => Some(Hint::Opb),
        Some(Kind::MinisatResult | Kind::ClaspText | Kind::Output) => Some(Hint::OutputNotFormula),
        Some(Kind::LratText | Kind::DratText | Kind::Number) => Some(Hint::NoHeader),
        Some(Kind::Empty) => Some(Hint::Empty),
        _ => decode_hint(kind),
    }
}

/// What helps with each kind, whichever input it is.
pub(crate) fn decode_hint(kind: Option<Kind>) -> Option<Hint>
    ensures { result ≡ decode_hint kind }
{
    match kind {
        Some(Kind::Encoded(encoding)) => Some(Hint::Decode(encoding)),
        Some(Kind::Html) => Some(Hint::Html),
        _ => None,
    }
}

/// Whether it is a proof, which lines of numbers alone don't show.
pub(crate) fn is_proof(kind: Option<Kind>, deletes: bool) -> bool
    ensures { result ≡ is_proof kind deletes }
{
    match kind {
        Some(
            Kind::VeriPb
            | Kind::ProofLine
            | Kind::FratBinary
            | Kind::DratBinary
            | Kind::OtherBinary
            | Kind::FratText,
        ) => true,
        Some(Kind::LratText | Kind::DratText) => deletes,
        _ => false,
    }
}
