//! What every session that checks a proof has to answer.

ghost use Rattle.std.specs.Prelude.{◌≡◌, ◌≤◌, false};

use proofs::{StepBuf, StepReader};
use std::alloc::Global;
use std::test::Fail;
use steps::{Accepted, ProofSession, Refusal};
use test_inputs::{expect_equal, expect_true, literals};

// What a session answers to a step, and after it the greatest sum of sizes, how many literals are
// kept, and whether it has verified.
pub type StepAnswer = (Result<Accepted, Refusal>, u64, u64, bool);

fn expect_answer<S: ProofSession>(
    session: &mut S,
    step: &StepBuf,
    answer: StepAnswer,
) -> Result<(), Fail> {
    let (expected, peak, held, verified) = answer;
    expect_equal(session.step(step), expected)?;
    expect_equal(session.peak(), peak)?;
    expect_equal(session.held(), held)?;
    expect_equal(session.verified(), verified)
}

fn expect_answers<S: ProofSession, R: StepReader>(
    alloc: Global,
    session: &mut S,
    reader: &mut R,
    answers: &[StepAnswer],
) -> Result<(), Fail> {
    let mut step = StepBuf::new(alloc);
    for answer in answers {
        expect_equal(reader.next(&mut step), Ok(true))?;
        expect_answer(session, &step, *answer)?;
    }
    expect_equal(reader.next(&mut step), Ok(false))
}

// The clauses of a formula.
#[derive(Clone, Copy)]
pub enum Formula {
    // 1 and 2.
    One,
    // 1 and 2, 1 twice, and -1 and 2: five literals where each counts once.
    Three,
    // 1 twice, and -1.
    Contradiction,
}

// The sum of the sizes, which is the greatest one too.
fn expect_formula<S: ProofSession>(
    alloc: Global,
    session: &mut S,
    formula: Formula,
) -> Result<(), Fail>
    requires unused { (S.shown session.old).has_stepped ≡ false }
    requires room { 3 ≤ (S.shown session.old).room }
{
    let both = literals(alloc, &[1, 2])?;
    let twice = literals(alloc, &[1, 1])?;
    let other = literals(alloc, &[-1, 2])?;
    let single = literals(alloc, &[-1])?;
    let size = match formula {
        Formula::One => {
            expect_equal(session.input(both.as_slice()), Ok(()))?;
            2
        }
        Formula::Three => {
            expect_equal(session.input(both.as_slice()), Ok(()))?;
            expect_equal(session.input(twice.as_slice()), Ok(()))?;
            expect_equal(session.input(other.as_slice()), Ok(()))?;
            5
        }
        Formula::Contradiction => {
            expect_equal(session.input(twice.as_slice()), Ok(()))?;
            expect_equal(session.input(single.as_slice()), Ok(()))?;
            2
        }
    };
    expect_equal(session.peak(), size)?;
    expect_equal(session.held(), size)?;
    expect_true(!session.verified())
}

// The answers to the steps of a proof.
pub fn expect_proof<S: ProofSession, R: StepReader>(
    alloc: Global,
    session: &mut S,
    reader: &mut R,
    formula: Formula,
    answers: &[StepAnswer],
) -> Result<(), Fail>
    requires unused { (S.shown session.old).has_stepped ≡ false }
    requires room { 3 ≤ (S.shown session.old).room }
{
    expect_formula(alloc, session, formula)?;
    expect_answers(alloc, session, reader, answers)
}

// The answers to a step that nothing was read into, each time that it is taken.
pub fn expect_to_new_step<S: ProofSession>(
    alloc: Global,
    session: &mut S,
    answers: &[StepAnswer],
    formula: Formula,
) -> Result<(), Fail>
    requires unused { (S.shown session.old).has_stepped ≡ false }
    requires room { 3 ≤ (S.shown session.old).room }
{
    expect_formula(alloc, session, formula)?;
    let step = StepBuf::new(alloc);
    for answer in answers {
        expect_answer(session, &step, *answer)?;
    }
    Ok(())
}

// The answers to the empty clause after `Formula::Contradiction`, and to a step after it.
pub const EMPTY_CLAUSE: [StepAnswer; 2] = [
    (Ok(Accepted::Empty), 2, 2, true),
    (Err(Refusal::Ended), 2, 2, true),
];

// A step and a clause after the formula's empty clause.
pub fn expect_ended<S: ProofSession>(alloc: Global, session: &mut S) -> Result<(), Fail>
    requires unused { (S.shown session.old).has_stepped ≡ false }
    requires room { 2 ≤ (S.shown session.old).room }
{
    expect_equal(session.input(&[]), Ok(()))?;
    expect_true(session.verified())?;
    let step = StepBuf::new(alloc);
    expect_equal(session.step(&step), Err(Refusal::Ended))?;
    expect_equal(session.input(&[]), Err(Refusal::Ended))?;
    expect_true(session.verified())?;
    expect_equal(session.peak(), 0)?;
    expect_equal(session.held(), 0)
}
