//! What a check found that a hint may help with.

use cnf_base::Fault;

/// What a check found that a hint may help with.
#[derive(Clone, Copy, Debug, PartialEq, Eq)]
pub enum Finding {
    /// The formula has this fault.
    Formula(Fault),
    /// The proof has it, or the solver's output.
    Second(Fault),
    /// A step was refused; before it a root-level literal may have been lost with its reason
    /// clause.
    Refused { literal_lost: bool },
    /// The proof ended without the empty clause.
    NoEmptyClause,
}
