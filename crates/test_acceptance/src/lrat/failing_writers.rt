//! Writers with room for a beginning of a report.

use crate::support::{
    E, E_BY_LRAT, E_BY_LRAT_TRACED, EMPTY_CLAUSE, G, LRAT, LRAT_TRACED, OUT_OF_RANGE, Row,
    expect_any_room, expect_equal, expect_ten_bytes,
};
use std::test::Fail;

const ROWS: [Row<'static>; 6] = [
    E_BY_LRAT,
    E_BY_LRAT_TRACED,
    EMPTY_CLAUSE,
    Row {
        name: "a bad token after two steps",
        formula: G,
        second: b"2 3 -1 0 0\n3 2 0 0\n?",
        lines: "c formula 2 variables 1 clauses\nc 1 add rat\nc 2 add rat\nc proof 3:1: bad token",
        status: 2,
        ..LRAT_TRACED
    },
    Row {
        name: "unnamed_candidate",
        formula: E,
        second: b"5 2 0 1 0\n",
        lines: "c formula 2 variables 4 clauses\n\
            c step 1: clause 4 holds the complement and is not named",
        status: 1,
        ..LRAT
    },
    OUT_OF_RANGE,
];

#[test]
fn ten_bytes(rt: HostRuntime) -> Result<(), Fail> {
    expect_equal(E_BY_LRAT.report(rt.alloc())?.len(), 60)?;
    expect_ten_bytes(rt.alloc(), &E_BY_LRAT, b"c formula ")
}

#[test]
fn failing_writers(rt: HostRuntime) -> Result<(), Fail> {
    expect_any_room(rt.alloc(), &ROWS)
}
