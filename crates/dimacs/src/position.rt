//! Where a token of a solver's output stands.

/// Where in a line of a solver's output the next token stands.
#[derive(Clone, Copy, Debug, PartialEq, Eq)]
pub(crate) enum Position {
    LineStart,
    AfterS,
    AfterStatus,
    /// After a `v`.
    Values,
}
