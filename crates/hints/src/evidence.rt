//! What an input shows of itself.

ghost use Rattle.hints.specs.Kinds.{Shows};

use crate::kind::Kind;
use crate::kinds::kind_of;
use crate::lines::{
    has_answer_among_others, has_carriage_return, is_satlib_end, some_begins_as_drat, some_deletes,
    some_repeats,
};

/// What an input shows of itself by the bytes that are kept of it.
#[derive(Clone, Copy, Debug, PartialEq, Eq)]
pub struct Evidence {
    /// What it is, if it shows it.
    pub kind: Option<Kind>,
    /// A line has the token `d`.
    pub deletes: bool,
    /// A line begins as a step of DRAT does and none of LRAT: with a `d`, a `0`, or a negative
    /// literal.
    pub begins_as_drat: bool,
    /// A line without the token `d` has its first token a second time.
    pub repeats: bool,
    /// A line begins as a solver's answer, and another one with neither an `s` nor a `v`.
    pub answer_among_others: bool,
    /// The first line ends with a carriage return and a line feed.
    pub carriage_return: bool,
    /// It ends as the files of SATLIB do: a line `%`, and a line `0`.
    pub satlib_end: bool,
}

/// What an input shows of itself by its first bytes, from the first line on that is neither blank
/// nor a comment, and by the last ones that were read of it.
pub fn evidence_of(first: &[u8], tail: &[u8]) -> Evidence
    ensures { Shows first.now result.kind }
{
    Evidence {
        kind: kind_of(first),
        deletes: some_deletes(first),
        begins_as_drat: some_begins_as_drat(first),
        repeats: some_repeats(first),
        answer_among_others: has_answer_among_others(first),
        carriage_return: has_carriage_return(first),
        satlib_end: is_satlib_end(tail),
    }
}
