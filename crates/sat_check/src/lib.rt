//! Whole checks, from bytes to bytes.
//!
//! An engine's contract has one clause on the inputs that it saw, `runs`, since two, each with a
//! pair of inputs of its own, might be true of different pairs. So the report and what follows from
//! it stand in one record of one pair: `ChecksProof` or `ChecksModel`. The theorem is beside it, in
//! clauses on the bytes that the readers have.
#![tactic(auto)]

mod check;
mod check_proof;
mod check_step;
mod checked;
mod conclude;
mod drat;
mod input_fault;
mod judge;
mod judgement;
pub mod laws;
mod load;
mod lrat;
mod model;
mod options;
mod tools;

pub use checked::Checked;
pub use command_line::{Args, ArgsFault, Tool, read_args};
pub use drat::{run_drat, run_drat_with};
pub use input_fault::InputFault;
pub use lrat::run_lrat;
pub use model::{run_model, run_model_placed};
pub use options::{DratOptions, LratOptions};
pub use report::{Status, binary_kind, text_kind};
pub use tools::{drat_forward, lrat_check};
