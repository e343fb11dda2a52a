//! Tests of the trail.

use cnf_base::{Lit, OutOfMemory};
use std::test::Fail;
use test_inputs::{expect_equal, expect_equal_at, expect_true, literal};
use trail::{
    Except, Left, Part, Trail, Value, Whole, first_non_false_under, is_false_under, is_true_under,
    left_of,
};

/// Makes room for the literal's variable, and sets it where it is open.
fn set_open(trail: &mut Trail, l: Lit) -> Result<(), OutOfMemory> {
    trail.reserve(l.var())?;
    if trail.value(l) == Value::Open {
        trail.set(l);
    }
    Ok(())
}

#[test]
fn sets_and_takes_back(rt: HostRuntime) -> Result<(), Fail> {
    let [least, greatest, other] = [literal(1)?, literal(-268435455)?, literal(7)?];
    let mut trail = Trail::new(rt.alloc())?;
    expect_true(trail.is_empty())?;
    expect_equal(trail.value(least), Value::Open)?;
    for l in [least, greatest, other, other.neg()] {
        set_open(&mut trail, l)?;
    }
    expect_true(trail.has_room(7))?;
    expect_true(!trail.has_room(8))?;
    // A macro, since `undo_to` requires what it says.
    assert_eq!(rt; trail.len(), 3);
    expect_equal(trail.lits(), [least, greatest, other].as_slice())?;
    expect_equal(trail.value(least), Value::True)?;
    expect_equal(trail.value(least.neg()), Value::False)?;
    expect_equal(trail.value(greatest), Value::True)?;
    expect_equal(trail.value(other.neg()), Value::False)?;
    trail.undo_to(1);
    expect_equal(trail.lits(), [least].as_slice())?;
    expect_equal(trail.value(greatest), Value::Open)?;
    set_open(&mut trail, greatest.neg())?;
    expect_equal(trail.value(greatest), Value::False)?;
    expect_equal(trail.lits(), [least, greatest.neg()].as_slice())
}

/// Makes room for a clause, and makes a part of it false.
fn make_false<P: Part>(trail: &mut Trail, clause: &[Lit], part: &P) -> Result<bool, OutOfMemory> {
    trail.reserve_all(clause)?;
    Ok(trail.make_false(clause, part))
}

#[test]
fn makes_false(rt: HostRuntime) -> Result<(), Fail> {
    let [one, two, three] = [literal(1)?, literal(2)?, literal(3)?];
    let clause = [one, two.neg(), three];
    let mut trail = Trail::new(rt.alloc())?;
    expect_equal(trail.left(&clause), Left::More)?;
    expect_true(!make_false(&mut trail, &clause, &Except(three))?)?;
    expect_equal(trail.lits(), [one.neg(), two].as_slice())?;
    expect_equal(trail.left(&clause), Left::One(three))?;
    expect_equal(left_of(&trail, &clause), Left::One(three))?;
    expect_equal(trail.left(&clause[..2]), Left::Nothing)?;
    expect_equal(trail.left(&[two, one]), Left::One(two))?;
    expect_true(make_false(&mut trail, &[three, two], &Whole)?)?;
    expect_equal(trail.value(three), Value::False)?;
    expect_equal(trail.left(&clause), Left::Nothing)
}

#[test]
fn has_room_for_any_number(rt: HostRuntime) -> Result<(), Fail> {
    let mut trail = Trail::new(rt.alloc())?;
    for var in [0, 1, 1, 268435455, 268435456, u32::MAX, 0] {
        trail.reserve(var)?;
    }
    expect_true(trail.is_empty())
}

#[test]
fn stays_where_memory_runs_out(rt: HostRuntime) -> Result<(), Fail> {
    let first = literal(3)?;
    let mut trail = Trail::new(rt.alloc())?;
    for var in 1..10000u32 {
        let Some(l) = Lit::new(-(var as i32)) else {
            break;
        };
        let before = trail.len();
        if set_open(&mut trail, l).is_err() {
            expect_equal(trail.len(), before)?;
            expect_equal(trail.value(l), Value::Open)?;
            set_open(&mut trail, l)?;
        }
        expect_equal(trail.len(), var as usize)?;
        if before >= 3 {
            expect_equal_at(var, trail.value(first), Value::False)?;
        }
    }
    Ok(())
}

/// What is left of a clause, by the array of values, where there is one.
fn unit_left(trail: &mut Trail, clause: &[Lit]) -> Result<Option<Left>, OutOfMemory> {
    trail.reserve_all(clause)?;
    match trail.dense() {
        Some(dense) => Ok(Some(dense.unit_left(clause))),
        None => Ok(None),
    }
}

#[test]
fn counts_what_is_left(rt: HostRuntime) -> Result<(), Fail> {
    let [one, two, other] = [literal(1)?, literal(2)?, literal(70)?];
    let mut trail = Trail::new(rt.alloc())?;
    expect_equal(unit_left(&mut trail, &[])?, Some(Left::Nothing))?;
    expect_equal(unit_left(&mut trail, &[one, other])?, Some(Left::More))?;
    let left = unit_left(&mut trail, &[other, other])?;
    expect_equal(left, Some(Left::One(other)))?;
    expect_true(!make_false(&mut trail, &[one, two.neg()], &Whole)?)?;
    let left = unit_left(&mut trail, &[one, other, two.neg()])?;
    expect_equal(left, Some(Left::One(other)))?;
    expect_equal(unit_left(&mut trail, &[one, two])?, Some(Left::One(two)))?;
    expect_equal(
        unit_left(&mut trail, &[two.neg(), one])?,
        Some(Left::Nothing),
    )?;
    let left = unit_left(&mut trail, &[two, one, two, other])?;
    expect_equal(left, Some(Left::More))?;
    let far = literal(268435455)?;
    expect_equal(unit_left(&mut trail, &[far])?, None)
}

/// The first place whose literal isn't false, by the array of values, or by the trail.
fn first_non_false(
    trail: &mut Trail,
    clause: &[Lit],
    from: usize,
) -> Result<Option<usize>, OutOfMemory> {
    trail.reserve_all(clause)?;
    match trail.dense() {
        Some(dense) => Ok(first_non_false_under(&dense, clause, from)),
        None => Ok(first_non_false_under(trail, clause, from)),
    }
}

#[test]
fn finds_what_is_open(rt: HostRuntime) -> Result<(), Fail> {
    let [one, two] = [literal(1)?, literal(2)?];
    for last in [literal(3)?, literal(268435455)?] {
        let mut trail = Trail::new(rt.alloc())?;
        let clause = [one, two, last, one];
        expect_equal(trail.first_non_false(&clause, 0), Some(0))?;
        expect_true(!make_false(&mut trail, &[one, two.neg()], &Whole)?)?;
        let places = [(0, Some(1)), (2, Some(2)), (3, None), (4, None)];
        for (from, place) in places {
            expect_equal(trail.first_non_false(&clause, from), place)?;
            expect_equal(first_non_false(&mut trail, &clause, from)?, place)?;
        }
        expect_true(!make_false(&mut trail, &[last], &Whole)?)?;
        expect_equal(first_non_false(&mut trail, &clause, 0)?, Some(1))?;
        expect_equal(first_non_false(&mut trail, &clause, 2)?, None)?;
    }
    Ok(())
}

/// Whether the literal is true, and whether it is false, by the array of values, or by the trail.
fn truth(trail: &mut Trail, l: Lit) -> Result<(bool, bool), OutOfMemory> {
    trail.reserve_all(&[l])?;
    match trail.dense() {
        Some(dense) => Ok((is_true_under(&dense, l), is_false_under(&dense, l))),
        None => Ok((is_true_under(trail, l), is_false_under(trail, l))),
    }
}

#[test]
fn answers_for_near_and_far_literals(rt: HostRuntime) -> Result<(), Fail> {
    let mut trail = Trail::new(rt.alloc())?;
    for l in [literal(1)?, literal(-2)?, literal(268435455)?] {
        expect_equal(truth(&mut trail, l)?, (false, false))?;
        set_open(&mut trail, l)?;
        expect_equal(truth(&mut trail, l)?, (true, false))?;
        expect_equal(truth(&mut trail, l.neg())?, (false, true))?;
    }
    Ok(())
}
