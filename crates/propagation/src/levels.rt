//! The assumptions that stand, at most two, the second on the first.
//!
//! RAT asks the same clause with each candidate. What the clause alone gives stays, and only the
//! candidate is assumed on it and taken back.

ghost use Rattle.std.specs.Prelude.{◌≡◌};
ghost use Rattle.propagation.specs.Code.Levels.{answered, first_number, pushed};

use crate::Answer;

/// The assumptions that stand.
#[derive(Clone, Copy)]
pub(crate) enum Levels {
    /// Nothing is assumed.
    Nothing,
    /// One assumption stands.
    One(Level),
    /// A second stands on the first.
    Two(Level, Level),
}

/// An assumption that stands: its number, how many literals were true before it, and how it was
/// answered.
#[derive(Clone, Copy)]
pub(crate) struct Level {
    pub(crate) number: u64,
    pub(crate) start: usize,
    pub(crate) answer: Answer,
}

impl Levels {
    /// The number of the first one, or that of the next where none stands.
    pub(crate) fn first_number(self, next: u64) -> u64
        ensures { result ≡ first_number self next }
    {
        match self {
            Levels::Nothing => next,
            Levels::One(first) => first.number,
            Levels::Two(first, _) => first.number,
        }
    }

    /// With one more on them, if fewer than two stand.
    pub(crate) fn pushed(self, level: Level) -> Levels
        ensures { result ≡ pushed self level }
    {
        match self {
            Levels::Nothing => Levels::One(level),
            Levels::One(first) => Levels::Two(first, level),
            Levels::Two(first, second) => Levels::Two(first, second),
        }
    }

    /// With another answer to the last one.
    pub(crate) fn answered(self, answer: Answer) -> Levels
        ensures { result ≡ answered self answer }
    {
        match self {
            Levels::Nothing => Levels::Nothing,
            Levels::One(first) => Levels::One(Level { answer, ..first }),
            Levels::Two(first, second) => Levels::Two(first, Level { answer, ..second }),
        }
    }
}
