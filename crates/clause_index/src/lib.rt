//! The index of a store of clauses: their slots by their hashes.
#![tactic(auto)]

mod chains;
mod hash;
mod index;
mod link;
mod sought;

pub use hash::{mixed, upper_half};
pub use index::{Index, Indexing, NoIndex};
pub use sought::Sought;
