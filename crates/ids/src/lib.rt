//! The identifiers of clauses, each with the slot of its clause.
#![tactic(auto)]

mod by_slot;
mod cache;
mod credit;
mod directory;
mod far;
mod map;
mod pages;
mod row;

pub use map::Ids;
