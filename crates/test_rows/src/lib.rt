//! Rows of whole runs: what a tool is given, what it has to write and to answer, and what runs it.
#![tactic(auto)]

mod engines;
mod examples;
mod rows;

pub use engines::{Engine, Propagation};
pub use examples::{
    E, E_BINARY, E_BY_BINARY, E_BY_BINARY_TRACED, E_BY_DRAT, E_BY_DRAT_TRACED, E_BY_LRAT,
    E_BY_LRAT_TRACED, E_DRAT, E_LINE, E_PROOF, EMPTY_CLAUSE, G, MODELS, MODELS_MET, MODELS_OUTPUT,
    OUT_OF_RANGE,
};
pub use rows::{
    BY_BINARY_DRAT, BY_DRAT, BY_OTHER_RULES, DRAT, DRAT_KEEP_UNITS_PR, DRAT_STRICT, DRAT_TRACED,
    LRAT, LRAT_TRACED, MODEL, Request, Row,
};
