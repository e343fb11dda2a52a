//! How a check ended.

ghost use Rattle.std.specs.Prelude.{◌≡◌, ◌≢◌, Some, None, false};
ghost use Rattle.sat_check.specs.Code.Checked.{ended};

use crate::{InputFault, Status};
use proofs::StepEnd;

/// How a check ended, and why: what is known of a step that was refused, or is wrong with an input.
#[derive(Clone, Copy, Debug, PartialEq, Eq)]
pub struct Checked {
    pub status: Status,
    /// Where the `0` stands that ends the refused step. None where no step was refused.
    pub refused: Option<StepEnd>,
    /// Whether the proof had lost a root-level literal by a deletion. False where no step was
    /// refused.
    pub literal_lost: bool,
    /// What is wrong with an input. None where the status isn't `Malformed`.
    pub fault: Option<InputFault>,
    /// Which clause of the formula, from 1, is the first that the model doesn't satisfy, if one is.
    pub unmet: Option<u64>,
}

impl Checked {
    /// No step was refused, and no input is malformed.
    pub(crate) fn without_step(status: Status) -> Checked
        ensures { result ≡ ended status None }
    {
        Checked {
            status,
            refused: None,
            literal_lost: false,
            fault: None,
            unmet: None,
        }
    }

    /// The model satisfies all clauses, or not the one of this number.
    pub(crate) fn by_clause(status: Status, unmet: Option<u64>) -> Checked
        ensures { result ≡ ended status unmet }
    {
        Checked {
            unmet,
            ..Checked::without_step(status)
        }
    }

    /// The last step, which ends there, was refused if the proof wasn't verified.
    pub(crate) fn by_step(status: Status, end: Option<StepEnd>, literal_lost: bool) -> Checked
        ensures status { result.status ≡ status }
        ensures refused { status ≡ Status.NotVerified → result.refused ≡ end }
        ensures only { status ≢ Status.NotVerified → result.refused ≡ None }
        ensures lost { status ≡ Status.NotVerified → result.literal_lost ≡ literal_lost }
        ensures none_lost { status ≢ Status.NotVerified → result.literal_lost ≡ false }
        ensures well_formed { result.fault ≡ None }
    {
        match status {
            Status::NotVerified => Checked {
                refused: end,
                literal_lost,
                ..Checked::without_step(status)
            },
            _ => Checked::without_step(status),
        }
    }

    /// An input has this fault, and is malformed where the status says so.
    pub(crate) fn by_fault(status: Status, fault: InputFault) -> Checked
        ensures status { result.status ≡ status }
        ensures refused { result.refused ≡ None }
        ensures none_lost { result.literal_lost ≡ false }
        ensures no_clause { result.unmet ≡ None }
        ensures malformed { status ≡ Status.Malformed → result.fault ≡ Some fault }
        ensures only { status ≢ Status.Malformed → result.fault ≡ None }
    {
        match status {
            Status::Malformed => Checked {
                fault: Some(fault),
                ..Checked::without_step(status)
            },
            _ => Checked::without_step(status),
        }
    }
}
