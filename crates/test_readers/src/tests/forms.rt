//! Readers of steps, into one buffer.

use cnf_base::{Fault, Lit};
use proofs::{DratBinary, DratText, LratText, StepBuf, StepEnd, StepKind, StepReader};
use std::alloc::{AllocError, Global};
use std::test::Fail;
use test_inputs::{Bytes, Cut, SIZES, expect_equal, open};

// The forms of a proof.
#[derive(Clone, Copy, Debug, PartialEq, Eq)]
pub enum Form {
    Lrat,
    Drat,
    Binary,
}

// What a step does, its identifier, its literals, and its hints or what it deletes.
pub type Step<'a> = (StepKind, u64, &'a [i32], &'a [i64]);

// Steps of DRAT.
pub const fn add<'a>(lits: &'a [i32]) -> Step<'a> {
    (StepKind::Add, 0, lits, &[])
}

pub const fn delete<'a>(lits: &'a [i32]) -> Step<'a> {
    (StepKind::Delete, 0, lits, &[])
}

pub fn numbers(alloc: Global, lits: &[Lit]) -> Result<Vec<i32>, AllocError> {
    let mut all = Vec::new(alloc);
    for lit in lits {
        all.push(lit.to_i32())?;
    }
    Ok(all)
}

fn expect_step(alloc: Global, step: &StepBuf, expected: &Step<'_>) -> Result<(), Fail> {
    let (kind, id, lits, hints) = *expected;
    expect_equal(step.kind(), kind)?;
    expect_equal(step.id(), id)?;
    let found = numbers(alloc, step.lits())?;
    expect_equal(found.as_slice(), lits)?;
    expect_equal(step.hints(), hints)
}

// The steps, and what comes after them at each further call.
fn expect_steps<R: StepReader>(
    alloc: Global,
    reader: &mut R,
    steps: &[Step<'_>],
    last: Result<bool, Fault>,
) -> Result<(), Fail> {
    let mut step = StepBuf::new(alloc);
    expect_step(alloc, &step, &(StepKind::Add, 0, &[], &[]))?;
    for expected in steps {
        expect_equal(reader.next(&mut step), Ok(true))?;
        expect_step(alloc, &step, expected)?;
    }
    for _ in 0..3 {
        expect_equal(reader.next(&mut step), last)?;
    }
    Ok(())
}

fn expect_ends<R: StepReader>(alloc: Global, reader: &mut R, ends: &[StepEnd]) -> Result<(), Fail> {
    let mut step = StepBuf::new(alloc);
    expect_equal(reader.step_end(), None)?;
    for end in ends {
        expect_equal(reader.next(&mut step), Ok(true))?;
        expect_equal(reader.step_end(), Some(*end))?;
    }
    expect_equal(reader.next(&mut step), Ok(false))
}

// What a reader has to give.
#[derive(Clone, Copy)]
enum Expected<'a> {
    // The steps, and what comes after them at each further call.
    Steps(&'a [Step<'a>], Result<bool, Fault>),
    // Where each step ends, and no more of them.
    Ends(&'a [StepEnd]),
}

fn expect_read<R: StepReader>(
    alloc: Global,
    reader: &mut R,
    expected: Expected<'_>,
) -> Result<(), Fail> {
    match expected {
        Expected::Steps(steps, last) => expect_steps(alloc, reader, steps, last)?,
        Expected::Ends(ends) => expect_ends(alloc, reader, ends)?,
    }
    Ok(())
}

fn expect_form(
    alloc: Global,
    form: Form,
    source: Bytes<'_>,
    expected: Expected<'_>,
) -> Result<(), Fail> {
    match form {
        Form::Lrat => {
            let mut reader = LratText::new(source);
            expect_read(alloc, &mut reader, expected)?;
            let _ = reader.release();
        }
        Form::Drat => {
            let mut reader = DratText::new(source);
            expect_read(alloc, &mut reader, expected)?;
            let _ = reader.release();
        }
        Form::Binary => {
            let mut reader = DratBinary::new(source);
            expect_read(alloc, &mut reader, expected)?;
            let _ = reader.release();
        }
    }
    Ok(())
}

// A proof in pieces of four sizes.
fn expect_pieces(
    alloc: Global,
    form: Form,
    proof: (&[u8], Cut),
    expected: Expected<'_>,
) -> Result<(), Fail> {
    let (bytes, cut) = proof;
    for size in SIZES {
        let source = open(alloc, bytes, size, cut)?;
        expect_form(alloc, form, source, expected)?;
    }
    Ok(())
}

pub fn expect_proof(
    alloc: Global,
    form: Form,
    proof: (&[u8], Cut),
    steps: &[Step<'_>],
    last: Result<bool, Fault>,
) -> Result<(), Fail> {
    expect_pieces(alloc, form, proof, Expected::Steps(steps, last))
}

// Where the steps of a proof end that has no fault.
pub fn expect_step_ends(
    alloc: Global,
    form: Form,
    bytes: &[u8],
    ends: &[StepEnd],
) -> Result<(), Fail> {
    expect_pieces(alloc, form, (bytes, Cut::Ends), Expected::Ends(ends))
}
