//! What is read of a proof, and inputs that can't be opened.

use crate::support::{
    Cut, E, E_BY_LRAT, E_PROOF, EMPTY_CLAUSE, LRAT, OUT_OF_RANGE, Row, expect_all,
    expect_one_piece_further, expect_read, expect_unread, expect_unread_lines,
};
use std::test::Fail;

// Formulas with a fault or with an empty clause, of which no proof is read.
const UNREAD: [Row<'static>; 6] = [
    Row {
        name: "an empty clause",
        ..EMPTY_CLAUSE
    },
    Row {
        name: "an empty clause after another",
        formula: "p cnf 1 2\n1 0\n0\n",
        lines: "c formula 1 variables 2 clauses\nc steps 0 peak 1",
        status: 0,
        ..LRAT
    },
    Row {
        name: "a bad token after an empty clause",
        formula: "p cnf 1 2\n0\n?\n",
        lines: "c formula 3:1: bad token",
        status: 2,
        ..LRAT
    },
    OUT_OF_RANGE,
    Row {
        name: "no formula",
        formula: "",
        lines: "c formula 1:1: bad header",
        status: 2,
        ..LRAT
    },
    Row {
        name: "a failed read of the formula",
        formula: E,
        formula_cut: Cut::Fails,
        lines: "c cannot read formula",
        status: 3,
        ..LRAT
    },
];

#[test]
fn unread(rt: HostRuntime) -> Result<(), Fail> {
    for row in UNREAD {
        for (second, second_cut) in [
            (E_PROOF, Cut::Ends),
            (b"xyz".as_slice(), Cut::Fails),
            (b"".as_slice(), Cut::Fails),
        ] {
            let row = Row {
                second,
                second_cut,
                ..row
            };
            expect_unread(rt.alloc(), &row)?;
        }
    }
    expect_read(rt.alloc(), &E_BY_LRAT)
}

// The proof of `E`, and further lines.
#[test]
fn after_the_verdict(rt: HostRuntime) -> Result<(), Fail> {
    expect_unread_lines(rt.alloc(), &E_BY_LRAT, 10)
}

// The step that decides ends with the byte 23, and the whole has 400024.
#[test]
fn one_piece_further(rt: HostRuntime) -> Result<(), Fail> {
    expect_one_piece_further(rt.alloc(), &E_BY_LRAT, 400024, 400024 - 65536 - 23)
}

// Without its formula.
const UNREAD_FORMULA: Row<'static> = Row {
    formula_cut: Cut::Fails,
    lines: "c cannot read formula",
    status: 3,
    ..LRAT
};

// A file that can't be opened is a reader whose first read fails.
#[test]
fn unopened(rt: HostRuntime) -> Result<(), Fail> {
    let rows = [
        Row {
            name: "no proof",
            formula: E,
            second_cut: Cut::Fails,
            lines: "c formula 2 variables 4 clauses\nc cannot read proof",
            status: 3,
            ..LRAT
        },
        Row {
            name: "no formula",
            second: E_PROOF,
            ..UNREAD_FORMULA
        },
        Row {
            name: "nothing",
            second_cut: Cut::Fails,
            ..UNREAD_FORMULA
        },
    ];
    expect_all(rt.alloc(), &rows)
}
