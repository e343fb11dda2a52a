//! Readers of proofs, step by step.
#![tactic(auto)]

mod drat_binary;
mod drat_text;
pub mod laws;
mod lrat_text;
mod moved;
mod step_buf;
mod step_end;
mod step_reader;
mod stopped;
mod text;

pub use drat_binary::DratBinary;
pub use drat_text::DratText;
pub use lrat_text::LratText;
pub use step_buf::{StepBuf, StepKind, parts_of};
pub use step_end::StepEnd;
pub use step_reader::StepReader;
