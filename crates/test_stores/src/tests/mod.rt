//! The tests, and what they share.

mod by_key;
mod clauses;
mod identifiers;
mod lists;
mod memories;
mod trails;
