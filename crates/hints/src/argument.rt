//! The two inputs that a command line names.

/// An input by its place in the command line.
#[derive(Clone, Copy, Debug, PartialEq, Eq)]
pub enum Argument {
    /// The formula, which is named first.
    Formula,
    /// The proof, or the solver's output.
    Second,
}
