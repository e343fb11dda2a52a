//! Memories of clauses: what one is (`Memory`), and two of them. `Blocks` has the literals of each
//! clause behind its header in one array, `Slots` each clause in a slot of its own.
#![tactic(auto)]

mod blocks;
mod kind;
mod memory;
mod reuse;
mod room;
mod slots;
mod words;

pub use blocks::Blocks;
pub use memory::Memory;
pub use slots::Slots;
