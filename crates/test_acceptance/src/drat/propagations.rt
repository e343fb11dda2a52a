//! Each answer to a step, by each propagation: the program picks one.

use crate::support::{DRAT_KEEP_UNITS_PR, DRAT_STRICT, DRAT_TRACED, Row, expect_all};
use std::test::Fail;

// All clauses of 1 and 2, which have no model, and two others.
const FORMULA: &str = "p cnf 5 6\n1 2 0\n-1 2 0\n1 -2 0\n-1 -2 0\n3 4 0\n5 0\n";

#[test]
fn rows(rt: HostRuntime) -> Result<(), Fail> {
    expect_all(rt.alloc(), &ROWS)
}

const ROWS: [Row<'static>; 3] = [
    Row {
        name: "a proof with each kind of step",
        formula: FORMULA,
        second: b"6 -3 0\n-3 -3 4 0\nd 5 0\nd 6 -3 0\n2 0\n0\n",
        lines: "c formula 5 variables 6 clauses\nc 1 add rat\nc 2 add pr\nc 3 ignored\n\
            c 4 delete\nc 5 add rup\nc 6 add rup\nc steps 6 peak 14",
        status: 0,
        ..DRAT_KEEP_UNITS_PR
    },
    // Of the two clauses with 3, the second leaves -6, and 6 follows.
    Row {
        name: "the second candidate fails",
        formula: FORMULA,
        second: b"6 -3 0\n-6 3 0\n-3 -4 0\n",
        lines: "c formula 5 variables 6 clauses\nc 1 add rat\nc 2 add rat\n\
            c step 3: neither RUP nor RAT on -3",
        status: 1,
        ..DRAT_TRACED
    },
    Row {
        name: "a deletion twice, strict",
        formula: FORMULA,
        second: b"d 3 4 0\nd 3 4 0\n",
        lines: "c formula 5 variables 6 clauses\nc step 2: clause is not alive",
        status: 1,
        ..DRAT_STRICT
    },
];
