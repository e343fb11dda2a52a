//! The literals that are true with nothing assumed, as clauses come and go.
#![tactic(auto)]

mod arranged;
mod doubts;
mod history;
mod kept;
mod made_true;
mod other_reason;
mod places;
mod reason;
mod roots;
mod starting;
mod units;
mod unshared;
mod uses;

pub use arranged::{Arranged, arrange};
pub use history::History;
pub use kept::Kept;
pub use reason::is_reason_at_root;
pub use roots::{Roots, set_by};
pub use starting::start;
pub use uses::Uses;
