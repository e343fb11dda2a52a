//! A solver's output and its formula, cut after each of their bytes, by their end or by a failed
//! read.

use crate::support::{
    Cuts, Cutting, Expected, HEADER, MODELS, MODELS_MET, MODELS_OUTPUT, UNREAD_FORMULA,
    expect_cuts, expect_equal,
};
use std::test::Fail;

// For the first n bytes of the output, for each n from 0 to 20. The whole one has 22.
const LINES: [Expected<'static>; 21] = [
    ("c output 1:1: no status line", 2),
    // The status line, of 14 bytes.
    ("c output 1:2: bad line", 2),
    ("c output 1:3: bad line", 2),
    ("c output 1:3: bad line", 2),
    ("c output 1:3: bad line", 2),
    ("c output 1:3: bad line", 2),
    ("c output 1:3: bad line", 2),
    ("c output 1:3: bad line", 2),
    ("c output 1:3: bad line", 2),
    ("c output 1:3: bad line", 2),
    ("c output 1:3: bad line", 2),
    ("c output 1:3: bad line", 2),
    ("c output 1:3: bad line", 2),
    ("c output 1:14: unterminated model", 2),
    ("c output 2:1: unterminated model", 2),
    // The values.
    ("c output 2:2: unterminated model", 2),
    ("c output 2:3: unterminated model", 2),
    ("c output 2:4: unterminated model", 2),
    ("c output 2:5: unterminated model", 2),
    ("c output 2:6: unterminated model", 2),
    ("c output 2:7: unterminated model", 2),
];

// For the first n bytes of the formula, for each n from 11 to 19. The whole one has 21, and its
// header 10.
const CLAUSES: [Expected<'static>; 9] = [
    // The first clause, of 7 bytes.
    ("c formula 2:2: unterminated clause", 2),
    ("c formula 2:3: unterminated clause", 2),
    ("c formula 2:3: bad token", 2),
    ("c formula 2:5: unterminated clause", 2),
    ("c formula 2:6: unterminated clause", 2),
    ("c formula 2:7: too few clauses", 2),
    ("c formula 3:1: too few clauses", 2),
    // The second.
    ("c formula 3:2: unterminated clause", 2),
    ("c formula 3:3: unterminated clause", 2),
];

// Only the end of an input says that nothing follows.
const OUTPUT: Cuts<'static> = Cuts {
    input: Cutting::Second(MODELS_MET, ""),
    ends: &[&LINES],
    failures: &[(23, ("c cannot read output", 3))],
};

const FORMULA: Cuts<'static> = Cuts {
    input: Cutting::Formula(MODELS_MET),
    ends: &[&HEADER, &CLAUSES],
    failures: &[(22, UNREAD_FORMULA)],
};

#[test]
fn cuts(rt: HostRuntime) -> Result<(), Fail> {
    expect_equal(MODELS.len(), 21)?;
    expect_equal(MODELS_OUTPUT.len(), 22)?;
    expect_cuts(rt.alloc(), &OUTPUT)?;
    expect_cuts(rt.alloc(), &FORMULA)
}
