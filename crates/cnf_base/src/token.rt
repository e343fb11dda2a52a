//! Tokens of a text.

use crate::{Place, Word};

/// A run of bytes without separators, a line's end, or the text's end, each with its place.
#[derive(Clone, Copy, Debug, PartialEq, Eq)]
pub enum Token {
    Word(Place, Word),
    LineEnd(Place),
    End(Place),
}
