//! The live clauses of a proof checker.
#![tactic(auto)]

mod slot;
mod store;

pub use clause_index::{Index, Indexing, NoIndex};
pub use clause_memory::{Blocks, Memory, Slots};
pub use slot::Slot;
pub use store::Store;
