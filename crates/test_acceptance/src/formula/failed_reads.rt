//! Formulas, after which a read fails. The report is a line and the verdict, and the proof doesn't
//! count.

use crate::support::{Cut, E_PROOF, LRAT, LRAT_TRACED, Row, expect};
use std::alloc::Global;
use std::test::Fail;

// Texts that show no fault.
const UNREADABLE: [&str; 12] = [
    "",
    "c x\n",
    "q",
    "p dnf",
    "p cnf 268435456",
    "p cnf 2 1",
    "p cnf 2 1 7",
    "p cnf 2 1\n",
    "p cnf 2 1\n1 3",
    "p cnf 2 1\n1 ?",
    "p cnf 2 1\n1 2 0\n",
    "p cnf 2 1\n1 2 0\n\n",
];

// Texts that show a fault before.
const FAULTS_BEFORE: [(&str, &str); 8] = [
    ("q ", "c formula 1:1: bad header"),
    ("p dnf ", "c formula 1:3: bad header"),
    ("p cnf 268435456 ", "c formula 1:7: number too large"),
    ("p cnf 2\n", "c formula 1:8: bad header"),
    ("p cnf 2 1 7\n", "c formula 1:11: bad header"),
    ("p cnf 2 1\n1 3 0\n", "c formula 2:3: literal out of range"),
    ("p cnf 2 1\n1 ?\t", "c formula 2:3: bad token"),
    ("p cnf 2 1\n1 2 0\n0\r", "c formula 3:1: too many clauses"),
];

// Proofs and a trace, of which nothing shows.
const UNREAD: [Row<'static>; 3] = [
    LRAT,
    Row {
        second: E_PROOF,
        ..LRAT_TRACED
    },
    Row {
        second: b"?",
        ..LRAT
    },
];

fn expect_cut<'a>(alloc: Global, formula: &'a str, lines: &'a str, status: u8) -> Result<(), Fail> {
    for base in UNREAD {
        let row = Row {
            name: formula,
            formula,
            formula_cut: Cut::Fails,
            lines,
            status,
            ..base
        };
        expect(alloc, &row)?;
    }
    Ok(())
}

#[test]
fn failed_reads(rt: HostRuntime) -> Result<(), Fail> {
    for formula in UNREADABLE {
        expect_cut(rt.alloc(), formula, "c cannot read formula", 3)?;
    }
    for (formula, line) in FAULTS_BEFORE {
        expect_cut(rt.alloc(), formula, line, 2)?;
    }
    Ok(())
}
