//! What a step lists.

use proofs::{DratText, StepBuf, StepReader};
use std::alloc::Global;
use std::test::Fail;
use test_inputs::{Cut, expect_equal, open};

// An addition, and how many of its literals are its clause, and how many its set.
const ROWS: [(&[u8], (usize, usize)); 6] = [
    (b"0\n", (0, 0)),
    (b"1 2 2 0\n", (3, 0)),
    (b"-1 -1 2 0\n", (1, 2)),
    (b"-1 -1 2 -1 0\n", (1, 3)),
    (b"1 2 -1 1 3 0\n", (3, 2)),
    (b"1 1 0\n", (1, 1)),
];

fn expect_lengths<R: StepReader>(
    alloc: Global,
    reader: &mut R,
    lengths: (usize, usize),
) -> Result<(), Fail> {
    let mut step = StepBuf::new(alloc);
    expect_equal(reader.next(&mut step), Ok(true))?;
    let (clause, set) = step.parts();
    expect_equal((clause.len(), set.len()), lengths)
}

#[test]
fn divides_a_clause_from_its_set(rt: HostRuntime) -> Result<(), Fail> {
    for (text, lengths) in ROWS {
        let mut reader = DratText::new(open(rt.alloc(), text, 7, Cut::Ends)?);
        expect_lengths(rt.alloc(), &mut reader, lengths)?;
        let _ = reader.release();
    }
    Ok(())
}
