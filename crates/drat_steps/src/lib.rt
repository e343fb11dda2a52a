//! The answers to the steps of a DRAT proof, over any store of clauses that propagates.
#![tactic(auto)]

mod addition;
mod candidates;
mod deletion;
mod step;
pub mod word;

pub use addition::AdditionChecker;
pub use deletion::delete;
pub use step::{add_copy, parts_under};
