//! Which hint is given.

ghost use Rattle.std.specs.Prelude.{◌≡◌};
ghost use Rattle.hints.specs.Hints.{empty_hint, formula_hint, header_hint, hint_of, or_else};
ghost use Rattle.hints.specs.Hints.{only_if, second_hint};

use crate::evidence::Evidence;
use crate::finding::Finding;
use crate::hint::Hint;
use crate::kind::Kind;
use crate::of_formula::formula_hint;
use crate::of_output::output_hint;
use crate::of_proof::{proof_hint, reads_as_hint, step_hint};
use cnf_base::Fault;
use command_line::{Args, Tool};

/// What may help where a check found this, by the options and by what the input shows: the formula
/// where that is malformed, and else the second one.
pub fn hint_of(tool: Tool, args: &Args, finding: Finding, shown: &Evidence) -> Option<Hint>
    ensures { result ≡ hint_of tool args.now finding shown.now }
{
    match finding {
        Finding::Formula(fault) => formula_hint(tool, fault, shown),
        Finding::Second(fault) => second_hint(tool, args, fault, shown),
        Finding::Refused { literal_lost } => {
            let step = step_hint(tool, args, literal_lost, shown);
            or_else(reads_as_hint(tool, shown), step)
        }
        Finding::NoEmptyClause => or_else(reads_as_hint(tool, shown), empty_hint(shown.kind)),
    }
}

fn second_hint(tool: Tool, args: &Args, fault: Fault, shown: &Evidence) -> Option<Hint>
    ensures { result ≡ second_hint tool args.now fault shown.now }
{
    match (tool, fault) {
        (_, Fault::ReadFailed | Fault::OutOfMemory) => None,
        (Tool::Model, fault) => output_hint(fault, shown),
        (Tool::Drat | Tool::Lrat, fault) => proof_hint(tool, args, fault, shown),
    }
}

fn empty_hint(kind: Option<Kind>) -> Option<Hint>
    ensures { result ≡ empty_hint kind }
{
    match kind {
        Some(Kind::Empty) => Some(Hint::Empty),
        _ => None,
    }
}

/// The hint, if this is so.
pub(crate) fn only_if(is_so: bool, hint: Hint) -> Option<Hint>
    ensures { result ≡ only_if is_so hint }
{
    if is_so { Some(hint) } else { None }
}

/// The first hint, or else the other.
pub(crate) fn or_else(hint: Option<Hint>, other: Option<Hint>) -> Option<Hint>
    ensures { result ≡ or_else hint other }
{
    hint.or(other)
}
