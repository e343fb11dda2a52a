//! What helps with a proof.

ghost use Rattle.std.specs.Prelude.{◌≡◌};
ghost use Rattle.hints.specs.Hints.{cut_hint, foreign_hint, form_hint, format_hint, proof_hint};
ghost use Rattle.hints.specs.Hints.{reads_as_hint, step_hint, witness_hint};

use crate::evidence::Evidence;
use crate::hint::Hint;
use crate::kind::Kind;
use crate::of_formula::decode_hint;
use crate::table::{only_if, or_else};
use cnf_base::{BinaryFault, Fault, TextFault};
use command_line::{Args, Tool};

/// With a fault of the proof.
pub(crate) fn proof_hint(tool: Tool, args: &Args, fault: Fault, shown: &Evidence) -> Option<Hint>
    ensures { result ≡ proof_hint tool args.now fault shown.now }
{
    let form = or_else(form_hint(tool, args.binary, shown.kind), cut_hint(fault));
    or_else(
        foreign_hint(shown.kind),
        or_else(reads_as_hint(tool, shown), form),
    )
}

// With what isn't a proof of ours.
fn foreign_hint(kind: Option<Kind>) -> Option<Hint>
    ensures { result ≡ foreign_hint kind }
{
    match kind {
        Some(Kind::Cnf) => Some(Hint::FormulaNotProof),
        Some(Kind::VeriPb) => Some(Hint::VeriPb),
        Some(Kind::ProofLine) => Some(Hint::ProofLine),
        Some(Kind::FratText) => Some(Hint::Frat),
        Some(Kind::FratBinary) => Some(Hint::FratBinary),
        Some(Kind::MinisatResult | Kind::ClaspText | Kind::Output) => Some(Hint::OutputNotProof),
        _ => decode_hint(kind),
    }
}

/// With a proof in the other tool's format.
pub(crate) fn reads_as_hint(tool: Tool, shown: &Evidence) -> Option<Hint>
    ensures { result ≡ reads_as_hint tool shown.now }
{
    format_hint(tool, shown.kind, shown.begins_as_drat)
}

fn format_hint(tool: Tool, kind: Option<Kind>, begins_as_drat: bool) -> Option<Hint>
    ensures { result ≡ format_hint tool kind begins_as_drat }
{
    match (tool, kind) {
        (Tool::Drat, Some(Kind::LratText)) => Some(Hint::ReadsAsLrat),
        (Tool::Lrat, Some(Kind::DratText)) => only_if(begins_as_drat, Hint::ReadsAsDrat),
        _ => None,
    }
}

// With a proof as text or in the binary form, where the other was expected.
fn form_hint(tool: Tool, binary: bool, kind: Option<Kind>) -> Option<Hint>
    ensures { result ≡ form_hint tool binary kind }
{
    match (tool, kind) {
        (Tool::Drat, Some(Kind::DratBinary)) => only_if(!binary, Hint::Binary),
        (Tool::Drat, Some(Kind::DratText)) => only_if(binary, Hint::Text),
        (Tool::Lrat, Some(Kind::DratBinary | Kind::OtherBinary)) => Some(Hint::OnlyText),
        _ => None,
    }
}

// With a proof that ends too early.
fn cut_hint(fault: Fault) -> Option<Hint>
    ensures { result ≡ cut_hint fault }
{
    match fault {
        Fault::Text(TextFault::UnterminatedStep, _)
        | Fault::Binary(BinaryFault::UnterminatedStep, _) => Some(Hint::CutShort),
        _ => None,
    }
}

/// With a refused step.
pub(crate) fn step_hint(
    tool: Tool,
    args: &Args,
    literal_lost: bool,
    shown: &Evidence,
) -> Option<Hint>
    ensures { result ≡ step_hint tool args.now literal_lost shown.now }
{
    match (tool, literal_lost) {
        (Tool::Drat, true) => Some(Hint::KeepUnits),
        (Tool::Drat, false) => witness_hint(args, shown.kind, shown.repeats),
        _ => None,
    }
}

// With a step that has its first literal twice.
fn witness_hint(args: &Args, kind: Option<Kind>, repeats: bool) -> Option<Hint>
    ensures { result ≡ witness_hint args.now kind repeats }
{
    match kind {
        Some(Kind::DratText) => only_if(repeats && !args.pr && !args.binary, Hint::Witness),
        _ => None,
    }
}
