//! What follows from live clauses by unit propagation.
#![tactic(auto)]

mod answer;
mod assumptions;
mod clause_source;
mod closure;
mod first_with;
mod levels;
mod propagate;
mod scan;
mod sparse;

pub use answer::Answer;
pub use assumptions::Assumptions;
pub use clause_source::ClauseSource;
pub use closure::Closure;
pub use propagate::Propagate;
pub use scan::Scan;
pub use sparse::is_sparse;
pub use trail::Value;
