//! Where each step ends that a reader gives.

use crate::tests::forms::{Form, expect_step_ends};
use cnf_base::Place;
use proofs::StepEnd;
use std::test::Fail;

const fn text(line: u64, col: u64) -> StepEnd {
    StepEnd::Text(Place { line, col })
}

#[test]
fn step_ends(rt: HostRuntime) -> Result<(), Fail> {
    for (form, bytes, ends) in [
        (
            Form::Drat,
            b"1 0 d 2\nc 0\n\r\n 0\n0".as_slice(),
            [text(1, 3), text(4, 2), text(5, 1)].as_slice(),
        ),
        // The first `0` of an addition ends its literals alone.
        (
            Form::Lrat,
            b"5 1 0 2\n0\n6 d 5 0\n".as_slice(),
            [text(2, 1), text(3, 7)].as_slice(),
        ),
        (
            Form::Binary,
            b"a\x82\x02\x00d\x00".as_slice(),
            [StepEnd::Byte(4), StepEnd::Byte(6)].as_slice(),
        ),
    ] {
        expect_step_ends(rt.alloc(), form, bytes, ends)?;
    }
    Ok(())
}
