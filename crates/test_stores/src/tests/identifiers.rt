//! Identifiers, each with the number of its slot.

use clause_db::Slot;
use cnf_base::OutOfMemory;
use ids::Ids;
use std::alloc::Global;
use std::test::Fail;
use test_inputs::{expect_equal, expect_equal_at, expect_true_at};

/// A call, and what it has to answer.
#[derive(Clone, Copy, Debug, PartialEq, Eq)]
enum Call {
    Bind(u64, usize),
    /// A slot whose number has no room.
    BindTooFar(u64, usize),
    SlotOf(u64, Option<usize>),
    NextBound(u64, Option<(u64, usize)>),
    Unbind(u64, Option<usize>),
}

/// Binds an identifier that is not bound.
fn bind_new(ids: &mut Ids, id: u64, slot: usize) -> Result<(), OutOfMemory> {
    if ids.slot_of(id).is_some() {
        return Ok(());
    }
    ids.bind(id, Slot::at(slot))
}

fn slot_of(ids: &Ids, id: u64) -> Option<usize> {
    let slot = ids.slot_of(id)?;
    Some(slot.number())
}

fn next_bound(ids: &Ids, from: u64) -> Option<(u64, usize)> {
    let (id, slot) = ids.next_bound(from)?;
    Some((id, slot.number()))
}

fn unbind(ids: &mut Ids, id: u64) -> Option<usize> {
    let slot = ids.unbind(id)?;
    Some(slot.number())
}

fn is_answered(ids: &mut Ids, call: Call) -> Result<bool, Fail> {
    let is_answered = match call {
        Call::Bind(id, slot) => {
            bind_new(ids, id, slot)?;
            true
        }
        Call::BindTooFar(id, slot) => bind_new(ids, id, slot).is_err(),
        Call::SlotOf(id, slot) => slot_of(ids, id) == slot,
        Call::NextBound(from, bound) => next_bound(ids, from) == bound,
        Call::Unbind(id, slot) => unbind(ids, id) == slot,
    };
    Ok(is_answered)
}

fn expect_calls(alloc: Global, calls: &[Call]) -> Result<(), Fail> {
    let mut ids = Ids::new(alloc)?;
    for call in calls {
        expect_true_at(*call, is_answered(&mut ids, *call)?)?;
    }
    Ok(())
}

const BINDS_AND_UNBINDS: [Call; 17] = [
    Call::NextBound(0, None),
    Call::Bind(10, 0),
    Call::Bind(u64::MAX, 1),
    Call::Bind(3, 1),
    Call::SlotOf(10, Some(0)),
    Call::SlotOf(11, None),
    Call::NextBound(0, Some((3, 1))),
    Call::NextBound(3, Some((3, 1))),
    Call::NextBound(4, Some((10, 0))),
    Call::NextBound(11, Some((u64::MAX, 1))),
    Call::Unbind(10, Some(0)),
    Call::Unbind(10, None),
    Call::NextBound(4, Some((u64::MAX, 1))),
    Call::Bind(10, 1),
    Call::NextBound(4, Some((10, 1))),
    Call::Unbind(u64::MAX, Some(1)),
    Call::NextBound(11, None),
];

// A page has 1024 identifiers. One was far when it was opened, among near ones that came later.
const FAR_AND_NEAR: [Call; 22] = [
    Call::Bind(1024 * 70 + 9, 0),
    Call::Bind(1024 * 80 + 9, 0),
    Call::Bind((1 << 60) + 9, 0),
    Call::Bind(9, 0),
    Call::Bind(1024 + 9, 0),
    Call::Bind(1024 * 2 + 9, 0),
    Call::Bind(1024 * 3 + 9, 0),
    Call::Bind(1024 * 4 + 9, 0),
    Call::Bind(1024 * 5 + 9, 0),
    Call::Bind(1024 * 6 + 9, 0),
    Call::Bind(1024 * 7 + 9, 0),
    Call::Bind(1024 * 8 + 9, 0),
    Call::Bind(1024 * 75 + 9, 0),
    Call::NextBound(8202, Some((1024 * 70 + 9, 0))),
    Call::NextBound(1024 * 70 + 10, Some((1024 * 75 + 9, 0))),
    Call::NextBound(1024 * 75 + 10, Some((1024 * 80 + 9, 0))),
    Call::NextBound(1024 * 80 + 10, Some(((1 << 60) + 9, 0))),
    Call::Unbind(1024 * 70 + 9, Some(0)),
    Call::SlotOf(1024 * 70 + 9, None),
    Call::NextBound(8202, Some((1024 * 75 + 9, 0))),
    Call::Bind(1024 * 70 + 8, 0),
    Call::NextBound(8202, Some((1024 * 70 + 8, 0))),
];

// The pages whose numbers are 64 apart have one line at first, and there is none for numbers from 2^32.
const ONE_LINE: [Call; 18] = [
    Call::Bind(1024 + 9, 0),
    Call::Bind(1024 * 65 + 9, 1),
    Call::Bind(1024 * 129 + 9, 2),
    Call::Bind((1 << 42) + 1024 + 9, 3),
    Call::SlotOf(1024 + 9, Some(0)),
    Call::SlotOf(1024 * 65 + 9, Some(1)),
    Call::SlotOf(1024 * 129 + 9, Some(2)),
    Call::SlotOf((1 << 42) + 1024 + 9, Some(3)),
    Call::NextBound(1024 + 10, Some((1024 * 65 + 9, 1))),
    Call::Unbind(1024 + 9, Some(0)),
    Call::SlotOf(1024 + 9, None),
    Call::SlotOf(1024 * 65 + 9, Some(1)),
    Call::Bind(1024 + 8, 4),
    Call::SlotOf(1024 + 8, Some(4)),
    Call::Unbind(1024 * 65 + 9, Some(1)),
    Call::SlotOf(1024 * 65 + 9, None),
    Call::NextBound(1024 + 9, Some((1024 * 129 + 9, 2))),
    Call::NextBound(1024 * 129 + 10, Some(((1 << 42) + 1024 + 9, 3))),
];

const FOUR_BYTES: [Call; 4] = [
    Call::Bind(1, 4294967294),
    Call::SlotOf(1, Some(4294967294)),
    Call::BindTooFar(2, 4294967295),
    Call::SlotOf(2, None),
];

#[test]
fn binds_and_unbinds(rt: HostRuntime) -> Result<(), Fail> {
    let rows: [&[Call]; 4] = [&BINDS_AND_UNBINDS, &FAR_AND_NEAR, &ONE_LINE, &FOUR_BYTES];
    for calls in rows {
        expect_calls(rt.alloc(), calls)?;
    }
    Ok(())
}

/// Binds so many identifiers in a row to slot 0.
fn bind_row(ids: &mut Ids, first: u64, count: u64) -> Result<(), OutOfMemory> {
    for place in 0..count {
        bind_new(ids, first.wrapping_add(place), 0)?;
    }
    Ok(())
}

/// They are bound, and are taken back.
fn expect_unbound(ids: &mut Ids, first: u64, count: u64) -> Result<(), Fail> {
    for place in 0..count {
        let id = first.wrapping_add(place);
        expect_equal_at(id, slot_of(ids, id), Some(0))?;
        expect_equal_at(id, unbind(ids, id), Some(0))?;
    }
    expect_equal(next_bound(ids, 0), None)
}

#[test]
fn takes_back_each(rt: HostRuntime) -> Result<(), Fail> {
    let mut ids = Ids::new(rt.alloc())?;
    for id in 1..100000 {
        bind_row(&mut ids, id, 1)?;
        expect_unbound(&mut ids, id, 1)?;
    }
    Ok(())
}

#[test]
fn uses_pages_again(rt: HostRuntime) -> Result<(), Fail> {
    let mut ids = Ids::new(rt.alloc())?;
    for round in 0..20u64 {
        bind_row(&mut ids, 102400 * round, 5000)?;
        expect_unbound(&mut ids, 102400 * round, 5000)?;
    }
    Ok(())
}

/// Page numbers near 2^53 can't have a place in a list that begins with page 0: it would be too
/// long.
#[test]
fn keeps_far_identifiers(rt: HostRuntime) -> Result<(), Fail> {
    let far = 1u64 << 63;
    let mut ids = Ids::new(rt.alloc())?;
    bind_row(&mut ids, far, 3000)?;
    expect_equal(slot_of(&ids, far + 3000), None)?;
    expect_equal(next_bound(&ids, 0), Some((far, 0)))?;
    expect_equal(next_bound(&ids, far + 1024), Some((far + 1024, 0)))?;
    expect_equal(next_bound(&ids, far + 3000), None)?;
    expect_unbound(&mut ids, far, 3000)
}

/// Binds it, and once more where memory is refused: nothing is bound then that was not.
fn bind_again(ids: &mut Ids, id: u64) -> Result<(), Fail> {
    let before = next_bound(ids, 0);
    if bind_new(ids, id, 0).is_err() {
        expect_equal_at(id, slot_of(ids, id), None)?;
        expect_equal_at(id, next_bound(ids, 0), before)?;
        bind_new(ids, id, 0)?;
    }
    expect_equal_at(id, slot_of(ids, id), Some(0))
}

#[test]
fn stays_where_memory_runs_out(rt: HostRuntime) -> Result<(), Fail> {
    let mut ids = Ids::new(rt.alloc())?;
    for id in [5, 9, 2, 7, 1, 8, 3, 6, 4] {
        bind_again(&mut ids, id)?;
    }
    Ok(())
}

/// Binds so many identifiers, each so far past the one before, to slots in a row, and puts them in by
/// their slots.
fn expect_by_slot(alloc: Global, apart: u64, count: usize) -> Result<(), Fail> {
    let mut ids = Ids::new(alloc)?;
    for slot in 0..count {
        bind_new(&mut ids, (slot as u64).wrapping_mul(apart), slot)?;
    }
    let mut by_slot = Vec::new(alloc);
    ids.put_by_slot(&mut by_slot)?;
    expect_equal(by_slot.len(), count)?;
    for slot in 0..by_slot.len() {
        let id = (slot as u64).wrapping_mul(apart);
        expect_equal_at(slot, by_slot[slot], id)?;
        expect_equal_at(slot, slot_of(&ids, id), Some(slot))?;
    }
    Ok(())
}

/// Side by side, in pages of a line each, in pages of one line, and far ones past the first pages.
#[test]
fn puts_identifiers_in_by_their_slots(rt: HostRuntime) -> Result<(), Fail> {
    for apart in [1, 1024, 1024 * 64, 1 << 50] {
        expect_by_slot(rt.alloc(), apart, 3000)?;
    }
    Ok(())
}
