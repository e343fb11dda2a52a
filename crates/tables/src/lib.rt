//! Values and lists by numbers of 32 bits, such as variables, literals and slots.
#![tactic(auto)]

mod by_key;
mod growth;
mod lists;

pub use by_key::{ByKey, key};
pub use lists::Lists;
