//! Sessions of LRAT.

use crate::tests::sessions::common::{
    EMPTY_CLAUSE, Formula, StepAnswer, expect_ended, expect_proof, expect_to_new_step,
};
use proofs::LratText;
use std::alloc::Global;
use std::test::Fail;
use steps::{Accepted, LratSession, Refusal};
use test_inputs::{Cut, open};

fn expect_steps(
    alloc: Global,
    formula: Formula,
    proof: &[u8],
    answers: &[StepAnswer],
) -> Result<(), Fail> {
    let mut session = LratSession::new(alloc)?;
    let mut reader = LratText::new(open(alloc, proof, 7, Cut::Ends)?);
    expect_proof(alloc, &mut session, &mut reader, formula, answers)
}

#[test]
fn proofs(rt: HostRuntime) -> Result<(), Fail> {
    let rows: [(Formula, &[u8], &[StepAnswer]); 3] = [
        (
            Formula::Contradiction,
            b"3 0 1 2 0\n4 d 1 0\n",
            &EMPTY_CLAUSE,
        ),
        (
            Formula::One,
            b"2 3 -1 0 0\n3 d 1 0\n3 4 -4 1 0 0\n3 5 0 0\n4 5 0 0\n",
            &[
                (Ok(Accepted::Rat), 4, 4, false),
                (Ok(Accepted::Deleted), 4, 2, false),
                (Ok(Accepted::Rup), 5, 5, false),
                (Err(Refusal::IdOutOfOrder), 5, 5, false),
                (Err(Refusal::Ended), 5, 5, false),
            ],
        ),
        // The last step names a deleted clause again.
        (
            Formula::Three,
            b"4 d 2 3 0\n4 d 1 1 0\n",
            &[
                (Ok(Accepted::Deleted), 5, 2, false),
                (Err(Refusal::UnknownId(1)), 5, 0, false),
            ],
        ),
    ];
    for (formula, proof, answers) in rows {
        expect_steps(rt.alloc(), formula, proof, answers)?;
    }
    Ok(())
}

// A step that nothing was read into has the identifier 0.
#[test]
fn step_without_identifier(rt: HostRuntime) -> Result<(), Fail> {
    let alloc = rt.alloc();
    let mut session = LratSession::new(alloc)?;
    let answers = [
        (Err(Refusal::IdOutOfOrder), 2, 2, false),
        (Err(Refusal::Ended), 2, 2, false),
    ];
    expect_to_new_step(alloc, &mut session, &answers, Formula::One)
}

#[test]
fn ended(rt: HostRuntime) -> Result<(), Fail> {
    let alloc = rt.alloc();
    let mut session = LratSession::new(alloc)?;
    expect_ended(alloc, &mut session)
}
