//! Faults: what is wrong with an input, and where, if it has a place.

ghost use Rattle.std.specs.Prelude.{◌≡◌};
ghost use Rattle.cnf_base.specs.declared.fault.Fault.TheVariants.{ReadFailed as Cut};
ghost use Rattle.cnf_base.specs.declared.fault.Fault.TheVariants.{OutOfMemory as Refused};

use crate::{OutOfMemory, Place, ReadFailed};

/// The first thing that is wrong with an input, and where.
#[derive(Clone, Copy, Debug, PartialEq, Eq)]
pub enum Fault {
    /// A malformed place of a text.
    Text(TextFault, Place),
    /// A malformed place of a binary proof, by the number of its byte, from 1 up to `u64::MAX`.
    Binary(BinaryFault, u64),
    /// A read failed.
    ReadFailed,
    /// A growth was refused.
    OutOfMemory,
}

impl From<OutOfMemory> for Fault {
    ghost from_gives = { λ _ f. f ≡ Refused };

    fn from(_refused: OutOfMemory) -> Fault {
        Fault::OutOfMemory
    }
}

impl From<ReadFailed> for Fault {
    ghost from_gives = { λ _ f. f ≡ Cut };

    fn from(_failed: ReadFailed) -> Fault {
        Fault::ReadFailed
    }
}

/// What is wrong at a place of a text.
#[derive(Clone, Copy, Debug, PartialEq, Eq)]
pub enum TextFault {
    /// A formula's header isn't `p cnf VARIABLES CLAUSES`.
    BadHeader,
    /// A number of a formula is past its limit.
    NumberTooLarge,
    /// A token can't stand there.
    BadToken,
    /// A formula's literal is past the header's number of variables.
    LiteralOutOfRange,
    /// A formula goes on after its last clause.
    TooManyClauses,
    /// A formula ends before its last clause.
    TooFewClauses,
    /// A formula ends inside a clause.
    UnterminatedClause,
    /// A line of a solver's output is none that may stand there.
    BadLine,
    /// A solver's output has a second status line.
    SecondStatus,
    /// A solver's output has no status line.
    NoStatus,
    /// A solver's output claims no model.
    NotClaimed,
    /// A token follows the end of a model.
    AfterEnd,
    /// A solver's output ends inside its model.
    UnterminatedModel,
    /// A model lists a literal and its complement.
    Complement,
    /// A literal is past the greatest variable.
    LiteralTooLarge,
    /// An identifier is past its limit.
    IdTooLarge,
    /// A proof ends inside a step.
    UnterminatedStep,
}

/// What is wrong at a byte of a binary proof.
#[derive(Clone, Copy, Debug, PartialEq, Eq)]
pub enum BinaryFault {
    /// A literal is past the greatest variable.
    LiteralTooLarge,
    /// A proof ends inside a step.
    UnterminatedStep,
    /// A step begins with neither `a` nor `d`.
    BadTag,
    /// A number is no literal, or isn't written in the shortest way.
    BadNumber,
}
