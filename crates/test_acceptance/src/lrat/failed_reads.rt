//! Proofs on the four clauses of two variables, after which a read fails.

use crate::support::{Cut, E, E_LINE, LRAT, Row, expect_after};
use std::alloc::Global;
use std::test::Fail;

const CUT: Row<'static> = Row {
    second_cut: Cut::Fails,
    ..LRAT
};

// Texts of which nothing shows.
const UNREADABLE: [&str; 7] = [
    "",
    "?",
    "9223372036854775808",
    "5 9 0 9 0",
    "5 2 0 1 2 0\n",
    "5 2 0 1 2 0\nc 6 0 5 3 4 0\n",
    "5 2 0 1 2 0\n6 0 5 3 4",
];

// Texts that are judged before.
const JUDGED: [(&str, &str, u8); 3] = [
    ("? ", "c proof 1:1: bad token", 2),
    (
        "9223372036854775808\n",
        "c proof 1:1: identifier too large",
        2,
    ),
    ("5 9 0 9 0 ", "c step 1: unknown id 9", 1),
];

fn expect_cut(alloc: Global, proof: &str, lines: &str, status: u8) -> Result<(), Fail> {
    let row = (proof, proof.as_bytes(), lines);
    expect_after(alloc, &CUT, (E, E_LINE), row, status)
}

#[test]
fn failed_reads(rt: HostRuntime) -> Result<(), Fail> {
    for proof in UNREADABLE {
        expect_cut(rt.alloc(), proof, "c cannot read proof", 3)?;
    }
    for (proof, lines, status) in JUDGED {
        expect_cut(rt.alloc(), proof, lines, status)?;
    }
    Ok(())
}
