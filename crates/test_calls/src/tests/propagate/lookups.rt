//! Tests of what both propagations look up: the same of each.

use crate::tests::propagate::calls::{UNIT_AND_BOTH, fill};
use crate::tests::propagate::fresh::Fresh;
use clause_db::Slot;
use cnf_base::Lit;
use propagation::{Answer, Propagate, Scan, Value};
use std::alloc::Global;
use std::test::Fail;
use test_inputs::{expect_equal, expect_true, literals};
use watch::Watch;

/// How many clauses the literals touch, and whether the first of them is this row; where the row is
/// empty, whether none is.
fn touched_first<P: Fresh>(
    alloc: Global,
    lits: &[i32],
    row: &[i32],
) -> Result<(usize, bool), Fail> {
    let mut clauses = P::fresh(alloc)?;
    fill(alloc, &mut clauses, &[[1, 2], [-1, -2], [-1, 3], [2, 3]])?;
    let lits = literals(alloc, lits)?;
    let clause = literals(alloc, row)?;
    let mut slots = Vec::new(alloc);
    clauses.touched(lits.as_slice(), &mut slots)?;
    let first = match slots.as_slice().first() {
        Some(slot) => Some(Slot::at(*slot as usize)),
        None => None,
    };
    Ok((slots.len(), first == clauses.find(clause.as_slice())))
}

fn expect_touched(alloc: Global, lits: &[i32], row: &[i32], count: usize) -> Result<(), Fail> {
    let scanned = touched_first::<Scan>(alloc, lits, row)?;
    expect_equal(scanned, (count, true))?;
    let watched = touched_first::<Watch>(alloc, lits, row)?;
    expect_equal(watched, (count, true))
}

#[test]
fn finds_what_literals_touch(rt: HostRuntime) -> Result<(), Fail> {
    let alloc = rt.alloc();
    let rows: [(&[i32], &[i32], usize); 6] = [
        (&[], &[], 0),
        (&[1], &[-1, -2], 2),
        (&[1, -2], &[2, 1], 4),
        (&[-3, 4], &[-1, 3], 2),
        (&[4, -5, 268435455], &[], 0),
        (&[-1, 2], &[1, 2], 2),
    ];
    for (lits, row, count) in &rows {
        expect_touched(alloc, lits, row, *count)?;
    }
    Ok(())
}

/// How many clauses the literal 1 touches at first, once one of them is taken out, and once another
/// has come.
fn touched_along<P: Fresh>(alloc: Global) -> Result<(usize, usize, usize), Fail> {
    let mut clauses = P::fresh(alloc)?;
    fill(alloc, &mut clauses, &[[1, 2], [-1, -2], [-1, 3]])?;
    let lits = literals(alloc, &[1])?;
    let mut slots = Vec::new(alloc);
    clauses.touched(lits.as_slice(), &mut slots)?;
    let first = slots.len();
    let clause = literals(alloc, &[-1, 3])?;
    if let Some(slot) = clauses.find(clause.as_slice()) {
        clauses.remove(slot);
    }
    clauses.touched(lits.as_slice(), &mut slots)?;
    let fewer = slots.len();
    let clause = literals(alloc, &[4, -1])?;
    clauses.insert(clause.as_slice())?;
    clauses.touched(lits.as_slice(), &mut slots)?;
    Ok((first, fewer, slots.len()))
}

#[test]
fn touched_clauses_come_and_go(rt: HostRuntime) -> Result<(), Fail> {
    let alloc = rt.alloc();
    expect_equal(touched_along::<Scan>(alloc)?, (2, 1, 2))?;
    expect_equal(touched_along::<Watch>(alloc)?, (2, 1, 2))
}

/// What propagation says of the greatest variable where its clause is left with it alone.
fn greatest<P: Fresh>(alloc: Global) -> Result<Value, Fail> {
    let mut clauses = P::fresh(alloc)?;
    fill(alloc, &mut clauses, &[[1, 268435455]])?;
    let clause = literals(alloc, &[1])?;
    let l = Lit::new(268435455).ok_or("no literal")?;
    match clauses.assume(clause.as_slice())? {
        Answer::Clash => Ok(Value::Open),
        Answer::Quiet => Ok(clauses.value(l)),
    }
}

/// How many literals the formula has, and whether there is a clause with this one.
fn looked_up<P: Fresh>(alloc: Global, rows: &[[i32; 2]], number: i32) -> Result<(u64, bool), Fail> {
    let mut clauses = P::fresh(alloc)?;
    fill(alloc, &mut clauses, rows)?;
    let l = Lit::new(number).ok_or("no literal")?;
    let slot = clauses.next_with(l, Slot::first());
    Ok((clauses.literals(), slot.is_some()))
}

fn expect_looked_up(alloc: Global, number: i32, there: bool) -> Result<(), Fail> {
    let scanned = looked_up::<Scan>(alloc, &UNIT_AND_BOTH, number)?;
    expect_equal(scanned, (5, there))?;
    let watched = looked_up::<Watch>(alloc, &UNIT_AND_BOTH, number)?;
    expect_equal(watched, (5, there))
}

#[test]
fn looks_up(rt: HostRuntime) -> Result<(), Fail> {
    let alloc = rt.alloc();
    expect_equal(greatest::<Scan>(alloc)?, Value::True)?;
    expect_equal(greatest::<Watch>(alloc)?, Value::True)?;
    for (number, there) in [(-2, true), (3, false)] {
        expect_looked_up(alloc, number, there)?;
    }
    Ok(())
}

/// How many clauses have the literal 2, and whether a slot with it is found, as the clauses `1 2`
/// are taken out one by one.
fn counts_down<P: Fresh>(alloc: Global, rows: &[[i32; 2]]) -> Result<Vec<(u64, bool)>, Fail> {
    let mut clauses = P::fresh(alloc)?;
    fill(alloc, &mut clauses, rows)?;
    let l = Lit::new(2).ok_or("no literal")?;
    let clause = literals(alloc, &[1, 2])?;
    let mut counts = Vec::new(alloc);
    for _ in 0..3 {
        let slot = clauses.next_with(l, Slot::first());
        counts.push((clauses.count_with(l), slot.is_some()))?;
        if let Some(slot) = clauses.find(clause.as_slice()) {
            clauses.remove(slot);
        }
    }
    Ok(counts)
}

const TWO_COPIES: [[i32; 2]; 3] = [[1, 2], [2, 1], [1, -2]];

#[test]
fn counts_copies(rt: HostRuntime) -> Result<(), Fail> {
    let alloc = rt.alloc();
    let expected = [(2, true), (1, true), (0, false)];
    let scanned = counts_down::<Scan>(alloc, &TWO_COPIES)?;
    expect_true(scanned.as_slice() == expected.as_slice())?;
    let watched = counts_down::<Watch>(alloc, &TWO_COPIES)?;
    expect_true(watched.as_slice() == expected.as_slice())
}
