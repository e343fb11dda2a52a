//! Formulas and what is said of them that many rows begin with.

use crate::rows::{BINARY_TRACED, BY_BINARY, DRAT, DRAT_TRACED, LRAT, LRAT_TRACED, MODEL, Row};

/// All four clauses of two variables, which have no model.
pub const E: &str = "p cnf 2 4\n1 2 0\n-1 2 0\n1 -2 0\n-1 -2 0\n";

/// What is written of it.
pub const E_LINE: &str = "c formula 2 variables 4 clauses";

/// A proof of that in LRAT.
pub const E_PROOF: &[u8] = b"5 2 0 1 2 0\n6 0 5 3 4 0\n";

/// One in DRAT.
pub const E_DRAT: &[u8] = b"2 0\n0\n";

/// The same in the binary form.
pub const E_BINARY: &[u8] = b"a\x04\x00a\x00";

/// One clause, which has models.
pub const G: &str = "p cnf 2 1\n1 2 0\n";

/// Two clauses, with the two models that make 2 true and 1 as one likes.
pub const MODELS: &str = "p cnf 2 2\n1 -2 0\n2 0\n";

/// One of them.
pub const MODELS_OUTPUT: &[u8] = b"s SATISFIABLE\nv 1 2 0\n";

/// Runs on `E`.
pub const E_BY_LRAT: Row<'static> = Row {
    name: "e_lrat",
    formula: E,
    second: E_PROOF,
    lines: "c formula 2 variables 4 clauses\nc steps 2 peak 9",
    status: 0,
    ..LRAT
};

pub const E_BY_LRAT_TRACED: Row<'static> = Row {
    name: "e_lrat, traced",
    formula: E,
    second: E_PROOF,
    lines: "c formula 2 variables 4 clauses\nc 1 add rup\nc 2 add rup\nc steps 2 peak 9",
    status: 0,
    ..LRAT_TRACED
};

pub const E_BY_DRAT: Row<'static> = Row {
    name: "e_drat",
    formula: E,
    second: E_DRAT,
    lines: "c formula 2 variables 4 clauses\nc steps 2 peak 9",
    status: 0,
    ..DRAT
};

pub const E_BY_DRAT_TRACED: Row<'static> = Row {
    name: "e_drat, traced",
    formula: E,
    second: E_DRAT,
    lines: "c formula 2 variables 4 clauses\nc 1 add rup\nc 2 add rup\nc steps 2 peak 9",
    status: 0,
    ..DRAT_TRACED
};

pub const E_BY_BINARY: Row<'static> = Row {
    name: "e_drat, in binary",
    formula: E,
    second: E_BINARY,
    lines: "c formula 2 variables 4 clauses\nc steps 2 peak 9",
    status: 0,
    ..BY_BINARY
};

pub const E_BY_BINARY_TRACED: Row<'static> = Row {
    name: "e_drat, traced",
    formula: E,
    second: E_BINARY,
    lines: "c formula 2 variables 4 clauses\nc 1 add rup\nc 2 add rup\nc steps 2 peak 9",
    status: 0,
    ..BINARY_TRACED
};

/// The empty clause in a formula, of which no proof is read.
pub const EMPTY_CLAUSE: Row<'static> = Row {
    name: "empty_clause_in_formula",
    formula: "p cnf 0 1\n0\n",
    lines: "c formula 0 variables 1 clauses\nc steps 0 peak 0",
    status: 0,
    ..LRAT
};

/// A fault of the formula.
pub const OUT_OF_RANGE: Row<'static> = Row {
    name: "a literal out of range",
    formula: "p cnf 2 1\n1 3 0\n",
    lines: "c formula 2:3: literal out of range",
    status: 2,
    ..LRAT
};

/// The run of the output.
pub const MODELS_MET: Row<'static> = Row {
    name: "models",
    formula: MODELS,
    second: MODELS_OUTPUT,
    lines: "c clauses 2",
    status: 0,
    ..MODEL
};
