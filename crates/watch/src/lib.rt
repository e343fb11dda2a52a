//! Unit propagation with two watched literals a clause.
#![tactic(auto)]

mod assume;
mod clause_source;
mod clauses;
mod follow;
mod gather;
mod propagate;
mod refresh;
mod room;
mod run;
mod visit;
mod watch;

pub use watch::Watch;
