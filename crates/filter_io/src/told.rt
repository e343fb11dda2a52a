//! What is told of a run, beside the report.

ghost use Rattle.std.specs.Prelude.{◌≡◌};
ghost use Rattle.filter_io.specs.Told.{malformed, refused, told_of};

use hints::{Evidence, Finding, Hint, hint_of};
use proofs::StepEnd;
use sat_check::{Args, Checked, InputFault, Status, Tool};

/// What is told of a run, beside the report.
#[derive(Clone, Copy, Debug, PartialEq, Eq)]
pub enum Told {
    /// The report says all.
    Nothing,
    OutOfMemory,
    WriteFailed,
    /// Why a read failed, of each input of which one did.
    ReadFailed,
    /// The proof ends without the empty clause, and what may help.
    NoEmptyClause(Option<Hint>),
    /// No consistent model is claimed.
    NoModel,
    /// Which clause of the formula, from 1, is the first that the model doesn't satisfy.
    NotSatisfied(u64),
    /// Where the step ends that was refused, and what may help.
    Refused(StepEnd, Option<Hint>),
    /// What is wrong with an input, and where, and what may help.
    Malformed(InputFault, Option<Hint>),
}

/// What is told where a check ended so, by what the formula and the second input show.
pub(crate) fn told_of(
    tool: Tool,
    args: &Args,
    checked: Checked,
    formula: &Evidence,
    second: &Evidence,
) -> Told
    ensures { result ≡ told_of tool args.now checked formula.now second.now }
{
    match checked.status {
        Status::Verified | Status::Usage => Told::Nothing,
        Status::NotVerified => refused(tool, args, checked, second),
        Status::Malformed => malformed(tool, args, checked.fault, formula, second),
        Status::ReadFailed => Told::ReadFailed,
        Status::OutOfMemory => Told::OutOfMemory,
        Status::WriteFailed => Told::WriteFailed,
    }
}

fn refused(tool: Tool, args: &Args, checked: Checked, second: &Evidence) -> Told
    ensures { result ≡ refused tool args.now checked second.now }
{
    if let Some(end) = checked.refused {
        let literal_lost = checked.literal_lost;
        let finding = Finding::Refused { literal_lost };
        return Told::Refused(end, hint_of(tool, args, finding, second));
    }
    match (tool, checked.unmet) {
        (Tool::Drat | Tool::Lrat, _) => {
            Told::NoEmptyClause(hint_of(tool, args, Finding::NoEmptyClause, second))
        }
        (Tool::Model, Some(number)) => Told::NotSatisfied(number),
        (Tool::Model, None) => Told::NoModel,
    }
}

fn malformed(
    tool: Tool,
    args: &Args,
    fault: Option<InputFault>,
    formula: &Evidence,
    second: &Evidence,
) -> Told
    ensures { result ≡ malformed tool args.now fault formula.now second.now }
{
    match fault {
        Some(InputFault::Formula(kind)) => {
            let hint = hint_of(tool, args, Finding::Formula(kind), formula);
            Told::Malformed(InputFault::Formula(kind), hint)
        }
        Some(InputFault::Second(kind)) => {
            let hint = hint_of(tool, args, Finding::Second(kind), second);
            Told::Malformed(InputFault::Second(kind), hint)
        }
        None => Told::Nothing,
    }
}
