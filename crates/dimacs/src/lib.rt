//! Formulas, read clause by clause, and the models that solvers claim.
#![tactic(auto)]

mod claim;
mod clause_buf;
mod formula;
mod header;
pub mod laws;
mod model;
mod position;
mod said;

pub use claim::read_claim;
pub use clause_buf::ClauseBuf;
pub use formula::FormulaReader;
pub use header::Header;
pub use model::Model;
