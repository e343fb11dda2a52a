//! Sessions of DRAT, over each propagation.

ghost use Rattle.std.specs.Prelude.{◌≡◌, [], false};
ghost use Rattle.std.specs.FinMap as maps;

use crate::tests::sessions::common::{
    EMPTY_CLAUSE, Formula, StepAnswer, expect_ended, expect_proof,
};
use proofs::DratText;
use propagation::{Propagate, Scan};
use std::alloc::Global;
use std::test::Fail;
use steps::{Accepted, DratRules, DratSession, Refusal};
use test_inputs::{Cut, open};
use watch::Watch;

// A proof after a formula, and the answers to its steps.
#[derive(Clone, Copy)]
struct Row<'a> {
    strict: bool,
    keep_units: bool,
    formula: Formula,
    proof: &'a [u8],
    answers: &'a [StepAnswer],
}

// What a session is tried on.
#[derive(Clone, Copy)]
enum Trial<'a> {
    Proof(Row<'a>),
    Ended,
}

fn expect_by<P: Propagate + Drop>(alloc: Global, clauses: P, trial: Trial<'_>) -> Result<(), Fail>
    requires empty { (P.state clauses).live ≡ maps.empty }
    requires nothing_assumed { (P.state clauses).assumptions ≡ [] }
    requires none_refused { (P.state clauses).has_refused ≡ false }
{
    let (strict, keep_units) = match trial {
        Trial::Proof(row) => (row.strict, row.keep_units),
        Trial::Ended => (false, false),
    };
    let rules = DratRules {
        strict,
        pr: false,
        keep_units,
    };
    let mut session = DratSession::new(clauses, rules);
    match trial {
        Trial::Proof(row) => {
            let mut reader = DratText::new(open(alloc, row.proof, 7, Cut::Ends)?);
            let Row {
                formula,
                answers,
                ..
            } = row;
            expect_proof(alloc, &mut session, &mut reader, formula, answers)?;
        }
        Trial::Ended => expect_ended(alloc, &mut session)?,
    }
    Ok(())
}

fn expect_by_both(alloc: Global, trial: Trial<'_>) -> Result<(), Fail> {
    expect_by(alloc, Scan::new(alloc)?, trial)?;
    expect_by(alloc, Watch::new(alloc)?, trial)
}

const ANSWERS: [StepAnswer; 6] = [
    (Ok(Accepted::Rat), 4, 4, false),
    (Ok(Accepted::Deleted), 4, 2, false),
    (Ok(Accepted::Rup), 5, 5, false),
    (Ok(Accepted::Ignored), 5, 5, false),
    (Err(Refusal::NotRup), 5, 5, false),
    (Err(Refusal::Ended), 5, 5, false),
];

const STRICT_ANSWERS: [StepAnswer; 3] = [
    (Ok(Accepted::Deleted), 2, 0, false),
    (Err(Refusal::NotAlive), 2, 0, false),
    (Err(Refusal::Ended), 2, 0, false),
];

const KEEP_UNITS_ANSWERS: [StepAnswer; 4] = [
    (Ok(Accepted::Rat), 3, 3, false),
    (Ok(Accepted::Ignored), 3, 3, false),
    (Ok(Accepted::Deleted), 3, 1, false),
    (Ok(Accepted::Ignored), 3, 1, false),
];

#[test]
fn proofs(rt: HostRuntime) -> Result<(), Fail> {
    let every_answer = Row {
        strict: false,
        keep_units: false,
        formula: Formula::One,
        proof: b"3 -1 0\nd 2 1 0\n4 -4 1 0\nd 5 0\n0\n0\n",
        answers: &ANSWERS,
    };
    let rows = [
        every_answer,
        Row {
            formula: Formula::Contradiction,
            proof: b"0\nd 1 0\n",
            answers: &EMPTY_CLAUSE,
            ..every_answer
        },
        Row {
            strict: true,
            proof: b"d 1 2 0\nd 1 2 0\n1 0\n",
            answers: &STRICT_ANSWERS,
            ..every_answer
        },
        Row {
            keep_units: true,
            proof: b"1 0\nd 1 0\nd 1 2 0\nd 1 2 0\n",
            answers: &KEEP_UNITS_ANSWERS,
            ..every_answer
        },
    ];
    for row in rows {
        expect_by_both(rt.alloc(), Trial::Proof(row))?;
    }
    Ok(())
}

#[test]
fn ended(rt: HostRuntime) -> Result<(), Fail> {
    expect_by_both(rt.alloc(), Trial::Ended)
}
