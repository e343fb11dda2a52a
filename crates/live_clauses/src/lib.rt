//! The live clauses of an LRAT proof, each at its identifier.
#![tactic(auto)]

mod clauses;
mod id_set;
mod owners;

pub use clauses::LiveClauses;
pub use id_set::IdSet;
