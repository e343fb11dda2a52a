//! Proofs in LRAT that are cut after each of their bytes, by their end or by a failed read.

use crate::support::{
    E_BY_LRAT, E_BY_LRAT_TRACED, E_PROOF, Expected, UNREAD_AFTER_ONE, UNREAD_PROOF, expect_equal,
    expect_proof_cuts,
};
use std::test::Fail;

// For the first n bytes of the proof, for each n from 0 to 22. The whole one has 24.
const STEPS: [Expected<'static>; 23] = [
    // The first step, of 12 bytes.
    ("c end: no empty clause", 1),
    ("c proof 1:2: unterminated step", 2),
    ("c proof 1:3: unterminated step", 2),
    ("c proof 1:4: unterminated step", 2),
    ("c proof 1:5: unterminated step", 2),
    ("c proof 1:6: unterminated step", 2),
    ("c proof 1:7: unterminated step", 2),
    ("c proof 1:8: unterminated step", 2),
    ("c proof 1:9: unterminated step", 2),
    ("c proof 1:10: unterminated step", 2),
    ("c proof 1:11: unterminated step", 2),
    ("c end: no empty clause", 1),
    ("c end: no empty clause", 1),
    // The second, of 12 bytes.
    ("c proof 2:2: unterminated step", 2),
    ("c proof 2:3: unterminated step", 2),
    ("c proof 2:4: unterminated step", 2),
    ("c proof 2:5: unterminated step", 2),
    ("c proof 2:6: unterminated step", 2),
    ("c proof 2:7: unterminated step", 2),
    ("c proof 2:8: unterminated step", 2),
    ("c proof 2:9: unterminated step", 2),
    ("c proof 2:10: unterminated step", 2),
    ("c proof 2:11: unterminated step", 2),
];

// The first step counts from its line feed on.
#[test]
fn cuts(rt: HostRuntime) -> Result<(), Fail> {
    expect_equal(E_PROOF.len(), 24)?;
    expect_proof_cuts(rt.alloc(), E_BY_LRAT, &[&STEPS], &[(24, UNREAD_PROOF)])?;
    let failures = [(12, UNREAD_PROOF), (24, UNREAD_AFTER_ONE)];
    expect_proof_cuts(rt.alloc(), E_BY_LRAT_TRACED, &[], &failures)
}
