//! Proofs in DRAT, after which a read fails, and proofs that are not read at all.

use crate::support::{
    BY_DRAT, Cut, DRAT, E, E_BY_BINARY_TRACED, E_BY_DRAT, E_DRAT, EMPTY_CLAUSE, G, MANY,
    OUT_OF_RANGE, Row, expect_all, expect_one_piece_further, expect_unread, expect_unread_lines,
};
use std::test::Fail;

const EMPTY_CLAUSE_BY_DRAT: Row<'static> = Row {
    request: BY_DRAT,
    ..EMPTY_CLAUSE
};

// A formula's empty clause is enough: nobody asks for the proof.
#[test]
fn unread(rt: HostRuntime) -> Result<(), Fail> {
    let row = Row {
        second: E_DRAT,
        second_cut: Cut::Fails,
        ..EMPTY_CLAUSE_BY_DRAT
    };
    expect_unread(rt.alloc(), &row)
}

// The step that decides ends with the byte 5, and the whole has 400006.
#[test]
fn one_piece_further(rt: HostRuntime) -> Result<(), Fail> {
    expect_one_piece_further(rt.alloc(), &E_BY_DRAT, 400006, 400006 - 65536 - 5)
}

// Bad tokens after the step that decides, in more than a piece that is read at once.
#[test]
fn after_the_verdict(rt: HostRuntime) -> Result<(), Fail> {
    expect_unread_lines(rt.alloc(), &E_BY_DRAT, MANY)
}

const ROWS: [Row<'static>; 8] = [
    Row {
        name: "empty_clause_in_formula, no proof",
        second_cut: Cut::Fails,
        ..EMPTY_CLAUSE_BY_DRAT
    },
    Row {
        name: "failed_read_of_proof",
        formula: E,
        second: b"2 0\n0",
        second_cut: Cut::Fails,
        lines: "c formula 2 variables 4 clauses\nc cannot read proof",
        status: 3,
        ..DRAT
    },
    Row {
        name: "failed_read_of_proof, after the verdict",
        formula: E,
        second: b"2 0\n0\n",
        second_cut: Cut::Fails,
        lines: "c formula 2 variables 4 clauses\nc steps 2 peak 9",
        status: 0,
        ..DRAT
    },
    Row {
        name: "no proof",
        formula: E,
        second: b"",
        second_cut: Cut::Fails,
        lines: "c formula 2 variables 4 clauses\nc cannot read proof",
        status: 3,
        ..DRAT
    },
    Row {
        name: "a refused step before a failed read",
        formula: G,
        second: b"0 ",
        second_cut: Cut::Fails,
        lines: "c formula 2 variables 1 clauses\nc step 1: not RUP",
        status: 1,
        ..DRAT
    },
    Row {
        name: "a step that touches a failed read",
        formula: G,
        second: b"0",
        second_cut: Cut::Fails,
        lines: "c formula 2 variables 1 clauses\nc cannot read proof",
        status: 3,
        ..DRAT
    },
    Row {
        name: "a fault of the formula",
        second: b"xyz",
        second_cut: Cut::Fails,
        request: BY_DRAT,
        ..OUT_OF_RANGE
    },
    Row {
        name: "a binary proof before a failed read",
        second_cut: Cut::Fails,
        ..E_BY_BINARY_TRACED
    },
];

#[test]
fn rows(rt: HostRuntime) -> Result<(), Fail> {
    expect_all(rt.alloc(), &ROWS)
}
