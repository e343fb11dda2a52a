//! The store of clauses, and its slots.

use clause_db::{Blocks, Memory, NoIndex, Slot, Slots, Store};
use cnf_base::{Lit, OutOfMemory};
use std::alloc::Global;
use std::test::Fail;
use test_inputs::{expect_equal, expect_true, expect_true_at, literal, literals};

/// A call, and what it has to answer.
#[derive(Clone, Copy, Debug, PartialEq, Eq)]
enum Call<'a> {
    /// A clause with this literal. Its slot is not that of the insertion before it.
    Insert(&'a [i32], i32),
    Literals(u64),
    CountWith(i32, u64),
    /// How many literals are kept of the clause, if it is there.
    Kept(&'a [i32], Option<usize>),
    /// Whether a copy was there. It is taken out.
    TakeOut(&'a [i32], bool),
}

/// Takes a copy of the clause out, if there is one.
fn take_out<M: Memory>(store: &mut Store<M>, lits: &[Lit]) -> bool {
    match store.find(lits) {
        Some(slot) => {
            store.remove(slot);
            true
        }
        None => false,
    }
}

/// How many literals the store keeps of the clause, if it is there.
fn kept_len<M: Memory>(store: &mut Store<M>, lits: &[Lit]) -> Option<usize> {
    match store.find(lits) {
        Some(slot) => Some(store.clause(slot).len()),
        None => None,
    }
}

/// What can be seen of a store: how many literals it has, in how many clauses this one is, and
/// whether the clause is there.
fn seen<M: Memory>(store: &mut Store<M>, lits: &[Lit], l: Lit) -> (u64, u64, bool) {
    let is_there = store.find(lits).is_some();
    (store.literals(), store.count_with(l), is_there)
}

/// Inserts the clause. Where memory is refused, it sees that nothing has changed, and tries once
/// more.
fn insert_again<M: Memory>(store: &mut Store<M>, lits: &[Lit], l: Lit) -> Result<Slot, Fail> {
    let before = seen(store, lits, l);
    match store.insert(lits) {
        Ok(slot) => Ok(slot),
        Err(OutOfMemory) => {
            expect_equal(seen(store, lits, l), before)?;
            Ok(store.insert(lits)?)
        }
    }
}

fn is_answered<M: Memory>(
    alloc: Global,
    store: &mut Store<M>,
    call: &Call<'_>,
) -> Result<bool, Fail> {
    let is_answered = match call {
        Call::Insert(..) => false,
        Call::Literals(count) => store.literals() == *count,
        Call::CountWith(number, count) => store.count_with(literal(*number)?) == *count,
        Call::Kept(numbers, length) => {
            let lits = literals(alloc, numbers)?;
            kept_len(store, lits.as_slice()) == *length
        }
        Call::TakeOut(numbers, is_there) => {
            let lits = literals(alloc, numbers)?;
            take_out(store, lits.as_slice()) == *is_there
        }
    };
    Ok(is_answered)
}

fn expect_calls<M: Memory + Drop>(alloc: Global, calls: &[Call<'_>]) -> Result<(), Fail> {
    let mut store = Store::<M>::new(alloc)?;
    let mut last = None;
    for call in calls {
        if let Call::Insert(numbers, with) = call {
            let lits = literals(alloc, numbers)?;
            let slot = insert_again(&mut store, lits.as_slice(), literal(*with)?)?;
            expect_true_at(*call, last != Some(slot))?;
            last = Some(slot);
        } else {
            expect_true_at(*call, is_answered(alloc, &mut store, call)?)?;
        }
    }
    Ok(())
}

const A: i32 = 1;

const B: i32 = -268435455;

const C: i32 = 3;

const CALLS: [Call<'static>; 21] = [
    Call::Kept(&[], None),
    Call::Insert(&[A, B, A], A),
    Call::Literals(2),
    Call::CountWith(A, 1),
    Call::Kept(&[B, A, B, A], Some(2)),
    Call::Kept(&[A], None),
    Call::Kept(&[A, B, C], None),
    Call::Insert(&[B, A], B),
    Call::Insert(&[C, B, A, -C, -B], C),
    Call::Insert(&[], C),
    Call::Literals(9),
    Call::CountWith(B, 3),
    Call::TakeOut(&[A, B], true),
    Call::Kept(&[A, B], Some(2)),
    Call::TakeOut(&[A, B], true),
    Call::Kept(&[A, B], None),
    Call::TakeOut(&[A, B], false),
    Call::Literals(5),
    Call::CountWith(A, 1),
    Call::Kept(&[A, -C, -B, B, C], Some(5)),
    Call::Kept(&[], Some(0)),
];

#[test]
fn stores_finds_and_removes(rt: HostRuntime) -> Result<(), Fail> {
    expect_calls::<Blocks>(rt.alloc(), &CALLS)?;
    expect_calls::<Slots>(rt.alloc(), &CALLS)
}

#[test]
fn counts_slots(rt: HostRuntime) -> Result<(), Fail> {
    let second = Slot::first().next();
    expect_true(second.is_some())?;
    expect_true(second != Some(Slot::first()))
}

/// Inserts the clause and takes it out again, and tells for how many clauses there is room then.
fn pass_through(store: &mut Store, lits: [Lit; 2]) -> Result<usize, Fail> {
    let [a, b] = lits;
    store.insert(&[a, b])?;
    if !take_out(store, &[b, a]) {
        return Err(Fail::from("no clause"));
    }
    Ok(store.end())
}

#[test]
fn keeps_its_room(rt: HostRuntime) -> Result<(), Fail> {
    let mut store = Store::new(rt.alloc())?;
    let mut room = 0;
    for i in 0..100000 {
        let lits = [literal(1 + i)?, literal(-2 - i / 3)?];
        let end = pass_through(&mut store, lits)?;
        if i == 9 {
            room = end;
        }
    }
    expect_equal(store.end(), room)?;
    expect_equal(store.literals(), 0)
}

fn insert_copies(store: &mut Store, lits: &[Lit], count: u32) -> Result<(), OutOfMemory> {
    for _ in 0..count {
        store.insert(lits)?;
    }
    Ok(())
}

/// Takes out so many copies, and tells how many were there.
fn take_out_copies(store: &mut Store, lits: &[Lit], count: u32) -> u32 {
    let mut found = 0u32;
    for _ in 0..count {
        if take_out(store, lits) {
            found = found.saturating_add(1);
        }
    }
    found
}

#[test]
fn removes_many_copies(rt: HostRuntime) -> Result<(), Fail> {
    let [a, b] = [literal(1)?, literal(-2)?];
    let mut store = Store::new(rt.alloc())?;
    insert_copies(&mut store, &[a, b], 100000)?;
    expect_equal(store.count_with(b), 100000)?;
    expect_equal(take_out_copies(&mut store, &[b, a], 100000), 100000)?;
    expect_true(store.find(&[a, b]).is_none())?;
    expect_equal(store.count_with(a), 0)
}

/// In how many clauses each of the two literals is.
fn counts_of(store: &Store<Slots, NoIndex>, lits: [Lit; 2]) -> (u64, u64) {
    let [a, b] = lits;
    (store.count_with(a), store.count_with(b))
}

/// The counts of the two literals once there are a clause with both and one with the first, and
/// once the former is removed.
fn counts_around(
    store: &mut Store<Slots, NoIndex>,
    lits: [Lit; 2],
) -> Result<((u64, u64), (u64, u64)), Fail> {
    let [a, b] = lits;
    let slot = store.insert(&[a, b, a])?;
    store.insert(&[a])?;
    let filled = counts_of(store, lits);
    store.remove(slot);
    Ok((filled, counts_of(store, lits)))
}

#[test]
fn counts_before_and_after_it_keeps_the_counts(rt: HostRuntime) -> Result<(), Fail> {
    let lits = [literal(A)?, literal(B)?];
    let mut store = Store::without_index(rt.alloc())?;
    expect_equal(counts_of(&store, lits), (0, 0))?;
    expect_equal(counts_around(&mut store, lits)?, ((2, 1), (1, 0)))?;
    store.keep_counts()?;
    expect_equal(counts_of(&store, lits), (1, 0))?;
    expect_equal(counts_around(&mut store, lits)?, ((3, 1), (2, 0)))?;
    store.keep_counts()?;
    expect_equal(counts_of(&store, lits), (2, 0))
}

#[test]
fn writes_a_new_watch(rt: HostRuntime) -> Result<(), Fail> {
    let lits = [literal(1)?, literal(-2)?, literal(268435455)?];
    let mut store = Store::new(rt.alloc())?;
    let slot = store.insert(&lits)?;
    let clause = store.clause(slot);
    assert!(rt; clause.len() == 3);
    let [l, other, next] = [clause[0], clause[1], clause[2]];
    store.rewatch(slot, other, next, 2, l);
    let Some(found) = store.find(&lits) else {
        return Err(Fail::from("no clause"));
    };
    expect_true(found == slot)?;
    expect_true(store.clause(found) == [other, next, l].as_slice())
}
