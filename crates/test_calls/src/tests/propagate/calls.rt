//! Tests of both propagations: the same of each.

ghost use Rattle.std.specs.Prelude.{◌≡◌, [], OnOk};
ghost use Rattle.propagation.specs.Assumptions.{LastIsAnswered};
ghost use Rattle.propagation.specs.declared.answer.Answer.TheVariants.{Quiet};

use crate::tests::propagate::fresh::Fresh;
use cnf_base::{Lit, OutOfMemory};
use propagation::{Answer, Propagate, Scan, Value};
use std::alloc::Global;
use std::test::Fail;
use test_inputs::{expect_equal, expect_true, literals};
use trail::LiteralSet;
use watch::Watch;

/// Inserts the clauses of a formula, in which a unit clause is a row with its literal twice.
pub(crate) fn fill<P: Propagate>(
    alloc: Global,
    clauses: &mut P,
    rows: &[[i32; 2]],
) -> Result<(), Fail>
    requires { (P.state clauses.old).assumptions ≡ [] }
    ensures { OnOk result ((P.state clauses.new).assumptions ≡ []) }
{
    for row in rows {
        let clause = literals(alloc, row)?;
        clauses.insert(clause.as_slice())?;
    }
    Ok(())
}

/// Which literals of the variables 1 to 3 are true.
fn trues<P: Propagate>(alloc: Global, clauses: &P) -> Result<Vec<i32>, Fail>
    requires { LastIsAnswered Quiet (P.state clauses.now).assumptions }
{
    let mut all = Vec::new(alloc);
    for number in [1, -1, 2, -2, 3, -3] {
        let l = Lit::new(number).ok_or("no literal")?;
        if clauses.value(l) == Value::True {
            all.push(number)?;
        }
    }
    Ok(all)
}

/// Which literals are true after an assumption; none where it clashes.
fn assumed<P: Fresh>(
    alloc: Global,
    rows: &[[i32; 2]],
    numbers: &[i32],
) -> Result<Option<Vec<i32>>, Fail> {
    let mut clauses = P::fresh(alloc)?;
    fill(alloc, &mut clauses, rows)?;
    let clause = literals(alloc, numbers)?;
    match clauses.assume(clause.as_slice())? {
        Answer::Clash => Ok(None),
        Answer::Quiet => Ok(Some(trues(alloc, &clauses)?)),
    }
}

const FOUR: [[i32; 2]; 4] = [[1, 2], [-1, 2], [1, -2], [-1, -2]];

pub(crate) const UNIT_AND_BOTH: [[i32; 2]; 3] = [[1, 1], [-1, 2], [-1, -2]];

/// A formula, whose complements are assumed, and what is true then.
type Propagation<'a> = (&'a [[i32; 2]], &'a [i32], Option<&'a [i32]>);

/// Whether both propagations find what is expected.
fn both_find(alloc: Global, row: &Propagation<'_>) -> Result<bool, Fail> {
    let (rows, numbers, expected) = *row;
    let scanned = assumed::<Scan>(alloc, rows, numbers)?;
    let watched = assumed::<Watch>(alloc, rows, numbers)?;
    let scanned = scanned.as_ref().map(|all| all.as_slice());
    let watched = watched.as_ref().map(|all| all.as_slice());
    Ok(scanned == expected && watched == expected)
}

#[test]
fn propagates(rt: HostRuntime) -> Result<(), Fail> {
    let rows: [Propagation<'_>; 5] = [
        (&FOUR, &[2], None),
        (&FOUR, &[], Some(&[])),
        (&UNIT_AND_BOTH, &[], None),
        (&[[-1, 2], [-1, -2]], &[], Some(&[])),
        (&[[1, 2]], &[-1, 3, 2], Some(&[1, -2, -3])),
    ];
    for row in &rows {
        expect_true(both_find(rt.alloc(), row)?)?;
    }
    Ok(())
}

/// Takes a clause out, if it is there, where what follows with nothing assumed is known.
fn lose<P: Propagate>(alloc: Global, clauses: &mut P, row: &[i32]) -> Result<(), Fail>
    requires { (P.state clauses.old).assumptions ≡ [] }
    ensures { OnOk result ((P.state clauses.new).assumptions ≡ []) }
{
    let _ = clauses.assume(&[])?;
    clauses.undo();
    let clause = literals(alloc, row)?;
    if let Some(slot) = clauses.find(clause.as_slice()) {
        clauses.remove(slot);
    }
    Ok(())
}

/// Which literals are true with nothing assumed, after two clauses were taken out.
fn left_true<P: Fresh>(
    alloc: Global,
    rows: &[[i32; 2]],
    first: &[i32],
    second: &[i32],
) -> Result<Option<Vec<i32>>, Fail> {
    let mut clauses = P::fresh(alloc)?;
    fill(alloc, &mut clauses, rows)?;
    lose(alloc, &mut clauses, first)?;
    lose(alloc, &mut clauses, second)?;
    match clauses.assume(&[])? {
        Answer::Clash => Ok(None),
        Answer::Quiet => Ok(Some(trues(alloc, &clauses)?)),
    }
}

/// 3 follows from 1, from 2, and from 4, which follows from it.
const WITH_A_CYCLE: [[i32; 2]; 6] = [[1, 1], [-1, 2], [-1, 3], [-2, 3], [-3, 4], [-4, 3]];

/// Two clauses that are taken out, and what is true then.
type Loss<'a> = (&'a [i32], &'a [i32], Option<&'a [i32]>);

#[test]
fn keeps_what_has_another_reason(rt: HostRuntime) -> Result<(), Fail> {
    let rows: [Loss<'_>; 4] = [
        (&[-1, 3], &[5, 6], Some(&[1, 2, 3])),
        (&[-1, 3], &[-2, 3], Some(&[1, 2])),
        (&[-1, 2], &[-1, 3], Some(&[1])),
        (&[-1, 3], &[1], Some(&[])),
    ];
    for (first, second, expected) in &rows {
        let scanned = left_true::<Scan>(rt.alloc(), &WITH_A_CYCLE, first, second)?;
        let scanned = scanned.as_ref().map(|all| all.as_slice());
        expect_true(scanned == *expected)?;
        let watched = left_true::<Watch>(rt.alloc(), &WITH_A_CYCLE, first, second)?;
        let watched = watched.as_ref().map(|all| all.as_slice());
        expect_true(watched == *expected)?;
    }
    Ok(())
}

/// How the rest of the clause `row` is answered where nothing else is assumed; none where there is
/// no such clause.
fn rest_answer<P: Fresh>(
    alloc: Global,
    rows: &[[i32; 2]],
    row: &[i32],
    left_out: i32,
) -> Result<Option<Answer>, Fail> {
    let mut clauses = P::fresh(alloc)?;
    fill(alloc, &mut clauses, rows)?;
    let l = Lit::new(left_out).ok_or("no literal")?;
    let clause = literals(alloc, row)?;
    match clauses.find(clause.as_slice()) {
        Some(slot) => Ok(Some(clauses.assume_rest(slot, l)?)),
        None => Ok(None),
    }
}

const QUIET_REST: [[i32; 2]; 2] = [[1, 2], [3, 3]];

const CLASHING_REST: [[i32; 2]; 2] = [[1, 2], [1, -2]];

#[test]
fn assumes_the_rest(rt: HostRuntime) -> Result<(), Fail> {
    let alloc = rt.alloc();
    let scanned = rest_answer::<Scan>(alloc, &QUIET_REST, &[2, 1], 2)?;
    expect_equal(scanned, Some(Answer::Quiet))?;
    let watched = rest_answer::<Watch>(alloc, &QUIET_REST, &[2, 1], 2)?;
    expect_equal(watched, Some(Answer::Quiet))?;
    let scanned = rest_answer::<Scan>(alloc, &CLASHING_REST, &[2, 1], 2)?;
    expect_equal(scanned, Some(Answer::Clash))?;
    let watched = rest_answer::<Watch>(alloc, &CLASHING_REST, &[2, 1], 2)?;
    expect_equal(watched, Some(Answer::Clash))
}

/// How a clause is answered but for what the set makes false, where nothing else is assumed; none
/// where there is no such clause. The set is given as literals, or filled before.
fn unless_answer<P: Fresh>(
    alloc: Global,
    row: &[i32],
    set: &[i32],
    is_filled: bool,
) -> Result<Option<Answer>, Fail> {
    let mut clauses = P::fresh(alloc)?;
    fill(alloc, &mut clauses, &QUIET_REST)?;
    let clause = literals(alloc, row)?;
    let set = literals(alloc, set)?;
    let mut filled = LiteralSet::new(clauses.alloc());
    filled.fill(set.as_slice())?;
    let Some(slot) = clauses.find(clause.as_slice()) else {
        return Ok(None);
    };
    let answer = if is_filled {
        clauses.assume_reduced(slot, &filled)?
    } else {
        clauses.assume_unless(slot, set.as_slice())?
    };
    Ok(Some(answer))
}

fn expect_unless(alloc: Global, set: &[i32], answer: Answer) -> Result<(), Fail> {
    for is_filled in [false, true] {
        let scanned = unless_answer::<Scan>(alloc, &[1, 2], set, is_filled)?;
        expect_equal(scanned, Some(answer))?;
        let watched = unless_answer::<Watch>(alloc, &[1, 2], set, is_filled)?;
        expect_equal(watched, Some(answer))?;
    }
    Ok(())
}

#[test]
fn assumes_unless_the_set_makes_it_false(rt: HostRuntime) -> Result<(), Fail> {
    let alloc = rt.alloc();
    let rows: [(&[i32], Answer); 5] = [
        (&[], Answer::Clash),
        (&[-1], Answer::Quiet),
        (&[-2, 3], Answer::Quiet),
        (&[1, 2, 3], Answer::Clash),
        (&[-2, -1], Answer::Quiet),
    ];
    for (set, expected) in &rows {
        expect_unless(alloc, set, *expected)?;
    }
    Ok(())
}

/// Whether a set has a literal with its complement.
fn has_conflict(alloc: Global, set: &[i32]) -> Result<bool, Fail> {
    let set = literals(alloc, set)?;
    let mut filled = LiteralSet::new(alloc);
    filled.fill(set.as_slice())?;
    Ok(filled.falsifies(set.as_slice()))
}

#[test]
fn finds_conflicts(rt: HostRuntime) -> Result<(), Fail> {
    let alloc = rt.alloc();
    let rows: [(&[i32], bool); 5] = [
        (&[], false),
        (&[1, 2, 1], false),
        (&[-2], false),
        (&[-1, 2, 1], true),
        (&[268435455, -268435455], true),
    ];
    for (set, expected) in &rows {
        expect_equal(has_conflict(alloc, set)?, *expected)?;
    }
    Ok(())
}

/// Whether an assumption that was refused is refused ever after, and changes nothing.
fn is_refused_again<P: Fresh>(alloc: Global) -> Result<bool, Fail> {
    let mut clauses = P::fresh(alloc)?;
    fill(alloc, &mut clauses, &FOUR)?;
    let clause = literals(alloc, &[7])?;
    match clauses.assume(clause.as_slice()) {
        Ok(answer) => Ok(answer == Answer::Quiet),
        Err(OutOfMemory) => Ok(clauses.assume(&[]).is_err()),
    }
}

#[test]
fn stays_where_memory_runs_out(rt: HostRuntime) -> Result<(), Fail> {
    let alloc = rt.alloc();
    expect_true(is_refused_again::<Scan>(alloc)?)?;
    expect_true(is_refused_again::<Watch>(alloc)?)
}

/// Whether a clause is the reason of a root-level literal; none where there is no such clause.
fn root_reason<P: Fresh>(
    alloc: Global,
    rows: &[[i32; 2]],
    row: &[i32],
) -> Result<Option<bool>, Fail> {
    let mut clauses = P::fresh(alloc)?;
    fill(alloc, &mut clauses, rows)?;
    let clause = literals(alloc, row)?;
    match clauses.find(clause.as_slice()) {
        Some(slot) => Ok(Some(clauses.is_root_reason(slot)?)),
        None => Ok(None),
    }
}

#[test]
fn tells_root_reasons(rt: HostRuntime) -> Result<(), Fail> {
    let alloc = rt.alloc();
    let rows: [(&[[i32; 2]], &[i32], Option<bool>); 7] = [
        (&[[1, 1], [-1, 2], [3, 1]], &[-1, 2], Some(true)),
        (&[[1, 1], [-1, 2], [3, 1]], &[1], Some(true)),
        (&[[1, 1], [-1, 2], [3, 1]], &[3, 1], Some(false)),
        (&FOUR, &[1, 2], Some(false)),
        (&[[1, 1], [-1, -1], [1, 2]], &[1, 2], Some(true)),
        (&[[1, 1], [-1, -1], [2, 3]], &[2, 3], Some(false)),
        (&UNIT_AND_BOTH, &[-1, -2], Some(true)),
    ];
    for (rows, row, expected) in &rows {
        let scanned = root_reason::<Scan>(alloc, rows, row)?;
        let watched = root_reason::<Watch>(alloc, rows, row)?;
        expect_true(scanned == *expected && watched == *expected)?;
    }
    Ok(())
}
