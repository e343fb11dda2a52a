//! Why a step is accepted: the word of its answer.
//!
//! What a step leaves depends on its word alone: an ignored deletion leaves the clauses as they
//! are. So `--keep-units` changes what may be answered, and nothing else.

/// Why a step was accepted.
#[derive(Clone, Copy, Debug, PartialEq, Eq)]
pub enum Accepted {
    /// An added clause with reverse unit propagation.
    Rup,
    /// An added clause that is a resolution asymmetric tautology on its first literal.
    Rat,
    /// An added clause that is propagation redundant by the set that it lists.
    Pr,
    /// A deletion of clauses that were alive.
    Deleted,
    /// A deletion of a clause that was not alive, or that the rules keep.
    Ignored,
    /// The empty clause, by reverse unit propagation.
    Empty,
}
