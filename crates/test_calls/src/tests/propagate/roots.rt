//! Tests of what `Watch` keeps of the literals that are true with nothing assumed.

ghost use Rattle.std.specs.Prelude.{◌≡◌, [], OnOk};

use crate::tests::propagate::calls::fill;
use crate::tests::propagate::fresh::{Known, Watching};
use std::alloc::Global;
use std::test::Fail;
use test_inputs::{expect_equal, expect_true, literals};
use watch::Watch;

/// Takes the clause out, if it is there, where nothing is assumed.
fn take_out<P: Watching>(alloc: Global, watch: &mut P, numbers: &[i32]) -> Result<Known, Fail>
    requires { (P.state watch.old).assumptions ≡ [] }
    ensures { OnOk result ((P.state watch.new).assumptions ≡ []) }
{
    let clause = literals(alloc, numbers)?;
    if let Some(slot) = watch.find(clause.as_slice()) {
        watch.remove(slot);
    }
    Ok(watch.known())
}

/// What is known after an assumption, after it was taken back, and after two removals: of a clause
/// that is no reason, and of one that is.
fn kept<P: Watching>(alloc: Global) -> Result<Vec<Known>, Fail> {
    let mut watch = P::fresh(alloc)?;
    let mut all = Vec::new(alloc);
    fill(alloc, &mut watch, &[[1, 1], [-1, 2], [3, 4]])?;
    let _ = watch.assume(&[])?;
    all.push(watch.known())?;
    watch.take_back();
    all.push(watch.known())?;
    Ok(all)
}

#[test]
fn keeps_what_follows(rt: HostRuntime) -> Result<(), Fail> {
    let all = kept::<Watch>(rt.alloc())?;
    let expected = [(true, false, 2), (true, false, 2)];
    expect_true(all.as_slice() == expected.as_slice())
}

/// What is known after the removal of a clause, by which the literal 2 follows from the unit clause
/// 1, or doesn't.
fn removed<P: Watching>(alloc: Global, numbers: &[i32]) -> Result<Known, Fail> {
    let mut watch = P::fresh(alloc)?;
    fill(alloc, &mut watch, &[[1, 1], [-1, 2], [3, 4]])?;
    let _ = watch.assume(&[])?;
    watch.take_back();
    take_out(alloc, &mut watch, numbers)
}

#[test]
fn loses_what_rests_on_a_removed_clause(rt: HostRuntime) -> Result<(), Fail> {
    let kept = removed::<Watch>(rt.alloc(), &[3, 4])?;
    expect_equal(kept, (true, false, 2))?;
    let lost = removed::<Watch>(rt.alloc(), &[-1, 2])?;
    expect_equal(lost, (false, false, 0))
}

/// What is known after the removal of a clause, and what is found again.
fn found_again<P: Watching>(
    alloc: Global,
    rows: &[[i32; 2]],
    numbers: &[i32],
) -> Result<(Known, Known), Fail> {
    let mut watch = P::fresh(alloc)?;
    fill(alloc, &mut watch, rows)?;
    let _ = watch.assume(&[])?;
    watch.take_back();
    let lost = take_out(alloc, &mut watch, numbers)?;
    let _ = watch.assume(&[])?;
    Ok((lost, watch.known()))
}

fn cut_back(alloc: Global, rows: &[[i32; 2]], numbers: &[i32]) -> Result<(Known, Known), Fail> {
    found_again::<Watch>(alloc, rows, numbers)
}

/// 3 follows from 1, and from 2.
const CHAIN: [[i32; 2]; 5] = [[-1, 2], [-2, 3], [-3, 4], [-1, 3], [1, 1]];

#[test]
fn cuts_back_to_the_lost_literal(rt: HostRuntime) -> Result<(), Fail> {
    let last = cut_back(rt.alloc(), &CHAIN, &[-3, 4])?;
    expect_equal(last, ((false, false, 3), (true, false, 3)))?;
    let first = cut_back(rt.alloc(), &CHAIN, &[-1, 2])?;
    expect_equal(first, ((false, false, 0), (true, false, 3)))
}

#[test]
fn keeps_a_literal_by_another_reason(rt: HostRuntime) -> Result<(), Fail> {
    let kept = cut_back(rt.alloc(), &CHAIN, &[-1, 3])?;
    expect_equal(kept, ((true, false, 4), (true, false, 4)))
}

/// What is known as three copies of the unit clause 1, by which 2 follows, are taken out in turn.
fn without_copies<P: Watching>(alloc: Global) -> Result<(Known, Known, Known), Fail> {
    let mut watch = P::fresh(alloc)?;
    fill(alloc, &mut watch, &[[1, 1], [-1, 2], [1, 1], [1, 1]])?;
    let _ = watch.assume(&[])?;
    watch.take_back();
    let two_left = take_out(alloc, &mut watch, &[1])?;
    let one_left = take_out(alloc, &mut watch, &[1])?;
    Ok((two_left, one_left, take_out(alloc, &mut watch, &[1])?))
}

#[test]
fn keeps_a_literal_by_a_copy(rt: HostRuntime) -> Result<(), Fail> {
    let (two_left, one_left, none_left) = without_copies::<Watch>(rt.alloc())?;
    expect_equal(two_left, (true, false, 2))?;
    expect_equal(one_left, (true, false, 2))?;
    expect_equal(none_left, (false, false, 0))
}

#[test]
fn takes_no_reason_from_behind(rt: HostRuntime) -> Result<(), Fail> {
    let cycle = [[1, 1], [-1, 2], [-2, 3], [-3, 2]];
    let lost = cut_back(rt.alloc(), &cycle, &[-1, 2])?;
    expect_equal(lost, ((false, false, 0), (true, false, 1)))
}

#[test]
fn takes_back_alone_what_no_clause_has(rt: HostRuntime) -> Result<(), Fail> {
    let units = [[1, 1], [2, 2], [3, 3], [-3, 4]];
    let unit = cut_back(rt.alloc(), &units, &[1])?;
    expect_equal(unit, ((true, false, 3), (true, false, 3)))?;
    let (_, copied) = cut_back(rt.alloc(), &[[1, 1], [1, 1], [2, 2]], &[1])?;
    expect_equal(copied, (true, false, 2))?;
    let known = cut_back(rt.alloc(), &[[1, 1], [2, 2], [-1, 3]], &[1])?;
    expect_equal(known, ((false, false, 0), (true, false, 1)))
}

/// How many literals are true with the literal 3 assumed, after it was lost: a clause that was
/// added where it was true makes 4 true too.
fn assumed_again<P: Watching>(alloc: Global) -> Result<usize, Fail> {
    let mut watch = P::fresh(alloc)?;
    fill(alloc, &mut watch, &[[1, 1], [-1, 2], [-2, 3]])?;
    let _ = watch.assume(&[])?;
    watch.take_back();
    fill(alloc, &mut watch, &[[-3, 4]])?;
    let _ = take_out(alloc, &mut watch, &[-2, 3])?;
    let clause = literals(alloc, &[-3])?;
    let _ = watch.assume(clause.as_slice())?;
    Ok(watch.true_literals())
}

#[test]
fn propagates_what_was_added_above_a_cut(rt: HostRuntime) -> Result<(), Fail> {
    expect_equal(assumed_again::<Watch>(rt.alloc())?, 4)
}

/// Whether all is known where two unit clauses contradict, and whether it is a clash.
fn contradicted<P: Watching>(alloc: Global) -> Result<(bool, bool), Fail> {
    let mut watch = P::fresh(alloc)?;
    fill(alloc, &mut watch, &[[1, 1], [-1, -1]])?;
    let _ = watch.assume(&[])?;
    let (is_known, is_conflict, _) = watch.known();
    Ok((is_known, is_conflict))
}

#[test]
fn keeps_a_clash(rt: HostRuntime) -> Result<(), Fail> {
    expect_equal(contradicted::<Watch>(rt.alloc())?, (true, true))
}
