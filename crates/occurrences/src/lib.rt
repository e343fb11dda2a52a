//! By literal the slots of the clauses that have it.
#![tactic(auto)]

mod by_literal;
mod occurrence;

pub use by_literal::Occurrences;
pub use occurrence::Occurrence;
