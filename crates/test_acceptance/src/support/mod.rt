//! What the tables of rows share.

mod cuts;
mod reading;
mod reports;
mod room;

pub use cuts::{
    Cuts, Cutting, Expected, HEADER, UNREAD_AFTER_ONE, UNREAD_FORMULA, UNREAD_PROOF, expect_cuts,
    expect_proof_cuts,
};
pub use reading::{expect_one_piece_further, expect_unread_lines};
pub use reports::{expect, expect_after, expect_all, expect_read, expect_unread};
pub use room::{expect_any_room, expect_ten_bytes};
pub use test_inputs::{
    Cut, MANY, Pieces, SIZES, Stop, Writer, expect_equal, expect_true_at, repeated,
};
pub use test_rows::{
    BY_DRAT, BY_OTHER_RULES, DRAT, DRAT_KEEP_UNITS_PR, DRAT_STRICT, DRAT_TRACED, E, E_BINARY,
    E_BY_BINARY, E_BY_BINARY_TRACED, E_BY_DRAT, E_BY_DRAT_TRACED, E_BY_LRAT, E_BY_LRAT_TRACED,
    E_DRAT, E_LINE, E_PROOF, EMPTY_CLAUSE, Engine, G, LRAT, LRAT_TRACED, MODEL, MODELS, MODELS_MET,
    MODELS_OUTPUT, OUT_OF_RANGE, Request, Row,
};
