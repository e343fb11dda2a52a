//! When a step of a proof is accepted, what a proof shows, and the laws of these definitions.
//!
//! No definition here names a store, a trail or a session: to judge a theorem takes these few files
//! and those of inputs. Of code they have only the answers and `DratRules`. The rule of LRAT lists
//! the literals of a clause that are not false; code counts them (`trail::Left`), and a lemma says
//! that both go on alike.
#![tactic(auto)]

mod accepted;
mod drat_rules;
pub mod laws;
mod refusal;

pub use accepted::Accepted;
pub use drat_rules::DratRules;
pub use refusal::Refusal;
