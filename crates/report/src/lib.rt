//! The lines of a report, and the status of a run.
#![tactic(auto)]

mod kinds;
mod line;
pub mod lines;
mod status;
mod subject;

pub use kinds::{binary_kind, text_kind};
pub use line::Line;
pub use status::Status;
pub use subject::Subject;
