//! Formulas of checks of proofs that are cut after each of their bytes, by their end or by a failed
//! read.

use crate::support::{
    Cuts, Cutting, E, E_BY_DRAT, E_BY_LRAT, Expected, HEADER, UNREAD_FORMULA, expect_cuts,
    expect_equal,
};
use std::test::Fail;

// The first n bytes of the formula `E`, for each n from 11 to 36. The whole one has 38, and its
// header 10.
const E_CLAUSES: [Expected<'static>; 26] = [
    // The first clause, of 6 bytes.
    ("c formula 2:2: unterminated clause", 2),
    ("c formula 2:3: unterminated clause", 2),
    ("c formula 2:4: unterminated clause", 2),
    ("c formula 2:5: unterminated clause", 2),
    ("c formula 2:6: too few clauses", 2),
    ("c formula 3:1: too few clauses", 2),
    // The second, of 7 bytes.
    ("c formula 3:1: bad token", 2),
    ("c formula 3:3: unterminated clause", 2),
    ("c formula 3:4: unterminated clause", 2),
    ("c formula 3:5: unterminated clause", 2),
    ("c formula 3:6: unterminated clause", 2),
    ("c formula 3:7: too few clauses", 2),
    ("c formula 4:1: too few clauses", 2),
    // The third, of 7 bytes.
    ("c formula 4:2: unterminated clause", 2),
    ("c formula 4:3: unterminated clause", 2),
    ("c formula 4:3: bad token", 2),
    ("c formula 4:5: unterminated clause", 2),
    ("c formula 4:6: unterminated clause", 2),
    ("c formula 4:7: too few clauses", 2),
    ("c formula 5:1: too few clauses", 2),
    // The fourth, of 8 bytes.
    ("c formula 5:1: bad token", 2),
    ("c formula 5:3: unterminated clause", 2),
    ("c formula 5:4: unterminated clause", 2),
    ("c formula 5:4: bad token", 2),
    ("c formula 5:6: unterminated clause", 2),
    ("c formula 5:7: unterminated clause", 2),
];

const OF_LRAT: Cuts<'static> = Cuts {
    input: Cutting::Formula(E_BY_LRAT),
    ends: &[&HEADER, &E_CLAUSES],
    failures: &[(39, UNREAD_FORMULA)],
};

const OF_DRAT: Cuts<'static> = Cuts {
    input: Cutting::Formula(E_BY_DRAT),
    ..OF_LRAT
};

#[test]
fn cuts(rt: HostRuntime) -> Result<(), Fail> {
    expect_equal(E.len(), 38)?;
    expect_cuts(rt.alloc(), &OF_LRAT)?;
    expect_cuts(rt.alloc(), &OF_DRAT)
}
