//! Proofs in DRAT that are cut after each of their bytes, by their end or by a failed read.

use crate::support::{
    BY_OTHER_RULES, E_BINARY, E_BY_BINARY, E_BY_BINARY_TRACED, E_BY_DRAT, E_BY_DRAT_TRACED, E_DRAT,
    Expected, Row, UNREAD_AFTER_ONE, UNREAD_PROOF, expect_equal, expect_proof_cuts,
};
use std::test::Fail;

// Where a read fails, the first step counts from the byte after its last word on, and in the binary
// form with its last byte.
#[test]
fn texts(rt: HostRuntime) -> Result<(), Fail> {
    expect_equal(E_DRAT.len(), 6)?;
    let by_other_rules = Row {
        request: BY_OTHER_RULES,
        ..E_BY_DRAT
    };
    for row in [E_BY_DRAT, by_other_rules] {
        let failures = [(4, UNREAD_PROOF), (6, UNREAD_PROOF)];
        expect_proof_cuts(rt.alloc(), row, &[&STEPS], &failures)?;
    }
    let failures = [(4, UNREAD_PROOF), (6, UNREAD_AFTER_ONE)];
    expect_proof_cuts(rt.alloc(), E_BY_DRAT_TRACED, &[&TRACED_STEPS], &failures)
}

#[test]
fn binary(rt: HostRuntime) -> Result<(), Fail> {
    let alloc = rt.alloc();
    expect_equal(E_BINARY.len(), 5)?;
    let failures = [(3, UNREAD_PROOF), (5, UNREAD_PROOF)];
    expect_proof_cuts(alloc, E_BY_BINARY, &[&BINARY_STEPS], &failures)?;
    let traced = [(3, UNREAD_PROOF), (5, UNREAD_AFTER_ONE)];
    expect_proof_cuts(alloc, E_BY_BINARY_TRACED, &[&TRACED_BINARY_STEPS], &traced)
}

// For the first n bytes of the proof, for each n from 0 to 4. The whole one has 6.
const STEPS: [Expected<'static>; 5] = [
    ("c end: no empty clause", 1),
    ("c proof 1:2: unterminated step", 2),
    ("c proof 1:3: unterminated step", 2),
    ("c end: no empty clause", 1),
    ("c end: no empty clause", 1),
];

// The same of the binary proof, of which the whole has 5.
const BINARY_STEPS: [Expected<'static>; 5] = [
    ("c end: no empty clause", 1),
    ("c proof byte 2: unterminated step", 2),
    ("c proof byte 3: unterminated step", 2),
    ("c end: no empty clause", 1),
    ("c proof byte 5: unterminated step", 2),
];

// With a trace.
const TRACED_STEPS: [Expected<'static>; 5] = [
    ("c end: no empty clause", 1),
    ("c proof 1:2: unterminated step", 2),
    ("c proof 1:3: unterminated step", 2),
    ("c 1 add rup\nc end: no empty clause", 1),
    ("c 1 add rup\nc end: no empty clause", 1),
];

const TRACED_BINARY_STEPS: [Expected<'static>; 5] = [
    ("c end: no empty clause", 1),
    ("c proof byte 2: unterminated step", 2),
    ("c proof byte 3: unterminated step", 2),
    ("c 1 add rup\nc end: no empty clause", 1),
    ("c 1 add rup\nc proof byte 5: unterminated step", 2),
];
