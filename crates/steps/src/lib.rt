//! The rules of proof steps, and sessions that check a proof by them.
#![tactic(auto)]

mod drat;
mod judge;
mod lrat;
mod named;
mod proof_session;
mod session;

pub use drat::DratSession;
use drat_steps::word;
pub use lrat::LratSession;
pub use proof_session::ProofSession;
pub use theory::{Accepted, DratRules, Refusal, laws};
