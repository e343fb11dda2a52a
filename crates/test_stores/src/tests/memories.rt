//! The memories of clauses.

use clause_db::{Blocks, Memory, Slots};
use cnf_base::Lit;
use std::test::Fail;
use test_inputs::{expect_equal, expect_true, literal};

/// Takes the clause out of the slot, if there is one, and tells how long it was.
fn take_out<M: Memory>(memory: &mut M, slot: usize) -> Option<usize> {
    if memory.at(slot).is_none() {
        return None;
    }
    let len = memory.clause(slot).len();
    memory.remove(slot);
    Some(len)
}

/// Keeps a short clause and a long one, and puts the long one in again where it was taken out.
fn keeps_two<M: Memory>(memory: &mut M, lits: [Lit; 6]) -> Result<(), Fail> {
    let [a, b, ..] = lits;
    let short = memory.insert(&[a, b])?;
    let long = memory.insert(&lits)?;
    expect_true(short < memory.end() && long < memory.end())?;
    expect_true(memory.at(short) == Some([a, b].as_slice()))?;
    expect_true(memory.at(long) == Some(lits.as_slice()))?;
    expect_equal(take_out(memory, long), Some(6))?;
    expect_equal(take_out(memory, long), None)?;
    expect_equal(memory.insert(&lits)?, long)?;
    expect_equal(take_out(memory, short), Some(2))?;
    expect_true(memory.at(long) == Some(lits.as_slice()))?;
    memory.recall_invariant();
    Ok(())
}

fn six_literals() -> Result<[Lit; 6], Fail> {
    Ok([
        literal(1)?,
        literal(-2)?,
        literal(3)?,
        literal(-4)?,
        literal(5)?,
        literal(6)?,
    ])
}

#[test]
fn blocks_keep_two(rt: HostRuntime) -> Result<(), Fail> {
    let mut blocks = Blocks::new(rt.alloc());
    keeps_two(&mut blocks, six_literals()?)
}

#[test]
fn slots_keep_two(rt: HostRuntime) -> Result<(), Fail> {
    let mut slots = Slots::new(rt.alloc());
    keeps_two(&mut slots, six_literals()?)
}

/// How many words there are with three clauses, without one of them, and with another one that is
/// as long.
fn words_again(blocks: &mut Blocks, lits: [Lit; 4]) -> Result<(usize, usize, usize), Fail> {
    let [a, b, c, d] = lits;
    blocks.insert(&[a])?;
    let slot = blocks.insert(&[a, b, c, d])?;
    blocks.insert(&[b, c, d])?;
    let filled = blocks.words();
    take_out(blocks, slot);
    let left = blocks.words();
    blocks.insert(&[d, c, b, a])?;
    Ok((filled, left, blocks.words()))
}

#[test]
fn uses_the_words_of_a_removed_clause(rt: HostRuntime) -> Result<(), Fail> {
    let mut blocks = Blocks::new(rt.alloc());
    expect_equal(blocks.words(), 0)?;
    let lits = [literal(1)?, literal(-2)?, literal(3)?, literal(4)?];
    expect_equal(words_again(&mut blocks, lits)?, (16, 16, 16))
}

#[test]
fn writes_in_place(rt: HostRuntime) -> Result<(), Fail> {
    let [a, b, c] = [literal(1)?, literal(-2)?, literal(3)?];
    let mut blocks = Blocks::new(rt.alloc());
    let slot = blocks.insert(&[a, b, c])?;
    let Some(clause) = blocks.at(slot) else {
        return Err(Fail::from("no clause"));
    };
    assert!(rt; clause.len() == 3);
    let [l, other, next] = [clause[0], clause[1], clause[2]];
    blocks.rewatch(slot, other, next, 2, l);
    expect_true(blocks.at(slot) == Some([b, c, a].as_slice()))?;
    let Some(clause) = blocks.at(slot) else {
        return Err(Fail::from("no clause"));
    };
    assert!(rt; clause.len() == 3);
    blocks.swap(slot, 0, 2);
    expect_true(blocks.at(slot) == Some([a, c, b].as_slice()))
}
