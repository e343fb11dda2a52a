//! Writers with room for a beginning of the report of a check of DRAT.

use crate::support::{
    BY_OTHER_RULES, E_BY_BINARY, E_BY_DRAT, E_BY_DRAT_TRACED, Row, expect_any_room, expect_equal,
    expect_ten_bytes,
};
use std::test::Fail;

const ROWS: [Row<'static>; 4] = [
    E_BY_DRAT,
    E_BY_DRAT_TRACED,
    E_BY_BINARY,
    Row {
        request: BY_OTHER_RULES,
        ..E_BY_DRAT
    },
];

#[test]
fn ten_bytes(rt: HostRuntime) -> Result<(), Fail> {
    expect_ten_bytes(rt.alloc(), &E_BY_DRAT, b"c formula ")
}

#[test]
fn failing_writers(rt: HostRuntime) -> Result<(), Fail> {
    expect_equal(E_BY_DRAT.report(rt.alloc())?.len(), 60)?;
    expect_any_room(rt.alloc(), &ROWS)
}
