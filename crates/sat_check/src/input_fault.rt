//! A fault of one of the inputs.

use cnf_base::Fault;

/// What is wrong with an input, and with which.
#[derive(Clone, Copy, Debug, PartialEq, Eq)]
pub enum InputFault {
    /// The formula.
    Formula(Fault),
    /// The proof, or the solver's output.
    Second(Fault),
}
