//! The watch list of a literal that became false: visits of its clauses, and moves to other lists.
//!
//! A clause is written before the list that it goes to, so that what was just read of it need not
//! be found again. Where memory for the list is refused, the clause watches the same two literals
//! as before, perhaps in the other order.
//!
//! The values are asked for once for all visits up to the next literal that becomes true.

ghost use Rattle.std.specs.Prelude.{◌≡◌, ◌≢◌, ℕ, ◌+◌, ◌≤◌, length, slice_get, Option, Some};
ghost use Rattle.std.specs.Prelude.{IsTrue, IsFalse, IfOk, IfSome, IfNone, OnOk};
ghost use Rattle.std.specs.List.{remove};
ghost use Rattle.std.specs.FinMap as maps;
ghost use Rattle.std.specs.FinMap.{FinMap};
ghost use Rattle.std.specs.Ordering.{nat_cmp};
ghost use Rattle.cnf_base.specs.Literals.{Clause, Literal, complement, has};
ghost use Rattle.propagation.specs.Assumptions.{AssumptionsState};
ghost use Rattle.root_literals.specs.Order.{each_in_order};
ghost use Rattle.root_literals.specs.Watched.{IsMet};
ghost use Rattle.root_literals.specs.Roots.{IsFalseAt};
ghost use Rattle.root_literals.specs.Code.Propagated.{PropagatesTo};
ghost use Rattle.watch_lists.specs.Lists.{entries_in, list_at};
ghost use Rattle.watch_lists.specs.Watched.{IsListed};
ghost use Rattle.watch.specs.Code.Visits.{AreMet, CanFollow, CanLook, CanVisit, Followed};
ghost use Rattle.watch.specs.Code.Visits.{HasRoomForBlocking, IsExchangeAt, IsFoundAfter};
ghost use Rattle.watch.specs.Code.Visits.{IsFoundNext, IsInHand, IsNextSlot, Visited, VisitsUnder};
ghost use Rattle.watch.specs.Code.Visits.{entries_left};
ghost use Rattle.tables.specs.ByKey.{at};

use crate::visit::{Exchange, Visit, look_at};
use clause_db::{Slot, Store};
use cnf_base::{Lit, OutOfMemory};
use propagation::Assumptions;
use root_literals::set_by;
use tables::ByKey;
use trail::{Assignment, Trail, is_true_under};
use watch_lists::{Cursor, WatchLists, Watcher};

/// Lets the clause of the next entry watch another literal instead of `l`, whose list is in hand
/// and loses the entry.
#[inline(always)]
fn move_watch(
    store: &mut Store,
    lists: &mut WatchLists,
    cursor: &mut Cursor,
    slot: u32,
    l: Lit,
    exchange: Exchange,
) -> Result<(), OutOfMemory>
    requires next { IsNextSlot cursor.old slot }
    requires hand { IsInHand store.old.live lists.old cursor.old.entries l }
    requires exchange { IsExchangeAt store.old.live slot l exchange }
    ensures visited { (held : AssumptionsState) (reason_of : Literal → Option ℕ) →
        IsFalse (has held.trail.lits (complement exchange.next)) →
        Visited store.old.live store.new.live lists.old lists.new cursor.old.entries
        cursor.new.entries held held reason_of reason_of l }
    ensures taken { OnOk result (cursor.new ≡ record cursor.old {
      entries = remove cursor.old.entries cursor.old.visited;
    }) }
    ensures others { (s : ℕ) → s ≢ slot →
        maps.get store.new.live s ≡ maps.get store.old.live s }
    ensures slots { store.new.slots ≡ store.old.slots }
{
    let at = Slot::at(slot as usize);
    // Before anything else is written, what was read of the clause need not be read again.
    store.rewatch(at, exchange.other, exchange.next, exchange.to, l);
    // It has a third literal, the one at `to`.
    let watcher = Watcher::new(slot, exchange.other, false);
    match lists.push(exchange.next, watcher) {
        Ok(()) => {
            cursor.take_out();
            Ok(())
        }
        Err(refused) => {
            store.swap(at, exchange.to, 1);
            Err(refused)
        }
    }
}

/// What is found of a clause that has no true literal.
#[derive(Clone, Copy)]
pub(crate) enum Found {
    /// This literal alone isn't false.
    Unit(Lit),
    /// All literals are false.
    Conflict,
}

/// An entry of whose clause something is found.
#[derive(Clone, Copy)]
pub(crate) struct FoundAt {
    pub(crate) entry: Watcher,
    pub(crate) found: Found,
}

/// Visits the clause of the next entry in the list of a literal that became false. Where something
/// is found of it, nothing is written, and the entry is still the next one.
#[inline(always)]
fn visit<A: Assignment>(
    store: &mut Store,
    lists: &mut WatchLists,
    assignment: &A,
    cursor: &mut Cursor,
    entry: Watcher,
    l: Lit,
) -> Result<Option<Found>, OutOfMemory>
    requires next { slice_get cursor.old.entries cursor.old.visited ≡ Some entry }
    requires can { CanLook store.old.live lists.old cursor.old (A.trail_of assignment.now) l }
    ensures visited { VisitsUnder (A.trail_of assignment.now) store.old.live store.new.live
        lists.old lists.new cursor.old.entries cursor.new.entries l }
    ensures met { OnOk result
        (AreMet store.new.live cursor.new l (A.trail_of assignment.now).lits) }
    ensures found { IfOk result (λ found. IfSome found
        (IsFoundNext store.new.live cursor.new (A.trail_of assignment.now).lits entry)) }
    ensures fewer { IfOk result (λ found. IfNone found
        (entries_left cursor.new + 1 ≡ entries_left cursor.old)) }
    ensures as_many { IfOk result (λ found. IfSome found (λ _.
        entries_left cursor.new ≡ entries_left cursor.old)) }
    ensures slots { store.new.slots ≡ store.old.slots }
{
    match look_at(store, assignment, entry, l) {
        Visit::Stays(blocking) => {
            cursor.keep(entry.with_blocking(blocking));
            Ok(None)
        }
        Visit::Moves(exchange) => {
            move_watch(store, lists, cursor, entry.slot(), l, exchange)?;
            Ok(None)
        }
        Visit::Unit(m) => Ok(Some(Found::Unit(m))),
        Visit::Conflict => Ok(Some(Found::Conflict)),
    }
}

/// Keeps the next entries whose blocking literal is true, up to one of which it isn't: that one.
/// Most visits end here, and a loop of its own has most of its numbers in registers.
#[inline(always)]
fn next_unblocked<A: Assignment>(assignment: &A, cursor: &mut Cursor) -> Option<Watcher>
    requires { HasRoomForBlocking (A.trail_of assignment.now).reserved cursor.old.entries }
    ensures entries { cursor.new.entries ≡ cursor.old.entries }
    ensures next { result ≡ slice_get cursor.new.entries cursor.new.visited }
    ensures met { (live : FinMap nat_cmp Clause) (lists : WatchLists) (l : Literal) →
        IsInHand live lists cursor.old.entries l →
        AreMet live cursor.old l (A.trail_of assignment.now).lits →
        AreMet live cursor.new l (A.trail_of assignment.now).lits }
    ensures no_more { entries_left cursor.new ≤ entries_left cursor.old }
{
    while let Some(entry) = cursor.next() {
        if !is_true_under(assignment, entry.blocking()) {
            return Some(entry);
        }
        cursor.keep(entry);
    }
    None
}

/// Visits the clauses of the next entries, up to one of which something is found.
#[inline(always)]
fn next_found_by<A: Assignment>(
    store: &mut Store,
    lists: &mut WatchLists,
    assignment: &A,
    cursor: &mut Cursor,
    l: Lit,
) -> Result<Option<FoundAt>, OutOfMemory>
    requires { CanLook store.old.live lists.old cursor.old (A.trail_of assignment.now) l }
    ensures visited { VisitsUnder (A.trail_of assignment.now) store.old.live store.new.live
        lists.old lists.new cursor.old.entries cursor.new.entries l }
    ensures met { OnOk result
        (AreMet store.new.live cursor.new l (A.trail_of assignment.now).lits) }
    ensures found { IfOk result
        (IsFoundAfter store.new.live cursor.new (A.trail_of assignment.now).lits) }
    ensures no_more { OnOk result (entries_left cursor.new ≤ entries_left cursor.old) }
    ensures slots { store.new.slots ≡ store.old.slots }
{
    while let Some(entry) = next_unblocked(assignment, cursor) {
        if let Some(found) = visit(store, lists, assignment, cursor, entry, l)? {
            return Ok(Some(FoundAt { entry, found }));
        }
    }
    Ok(None)
}

/// The same by the trail, of which mostly all values stand in one array.
#[inline(always)]
fn next_found(
    store: &mut Store,
    lists: &mut WatchLists,
    trail: &Trail,
    cursor: &mut Cursor,
    l: Lit,
) -> Result<Option<FoundAt>, OutOfMemory>
    requires { CanLook store.old.live lists.old cursor.old trail.now l }
    ensures visited { VisitsUnder trail.now store.old.live store.new.live lists.old lists.new
        cursor.old.entries cursor.new.entries l }
    ensures met { OnOk result (AreMet store.new.live cursor.new l trail.now.lits) }
    ensures found { IfOk result (IsFoundAfter store.new.live cursor.new trail.now.lits) }
    ensures no_more { OnOk result (entries_left cursor.new ≤ entries_left cursor.old) }
    ensures slots { store.new.slots ≡ store.old.slots }
{
    match trail.dense() {
        Some(dense) => next_found_by(store, lists, &dense, cursor, l),
        None => next_found_by(store, lists, trail, cursor, l),
    }
}

/// Visits the clauses in the list of a literal that became false, up to one that is false: its
/// slot.
#[inline(always)]
fn visit_all(
    store: &mut Store,
    lists: &mut WatchLists,
    assumptions: &mut Assumptions,
    reasons: &mut ByKey<u32>,
    cursor: &mut Cursor,
    l: Lit,
) -> Result<Option<u32>, OutOfMemory>
    requires front { cursor.old.visited ≡ 0 }
    requires can { CanVisit store.old.live lists.old cursor.old.entries assumptions.old
        (at reasons.old) l }
    ensures conflict { IfOk result (λ found. IfSome found (λ s.
        IsFalseAt (maps.get (each_in_order store.new.live)) s assumptions.new.trail.lits)) }
    ensures met { IfOk result (λ found. IfNone found ((s : ℕ) (c : Clause) →
        maps.get store.new.live s ≡ Some c → IsMet c l assumptions.new.trail.lits)) }
    ensures visited { Visited store.old.live store.new.live lists.old lists.new
        cursor.old.entries cursor.new.entries assumptions.old assumptions.new
        (at reasons.old) (at reasons.new) l }
    ensures slots { store.new.slots ≡ store.old.slots }
{
    while let Some(at) = next_found(store, lists, assumptions.trail(), cursor, l)? {
        let entry = at.entry;
        let found = at.found;
        match found {
            Found::Unit(m) => {
                set_by(assumptions, reasons, m, entry.slot());
                cursor.keep(entry);
            }
            Found::Conflict => return Ok(Some(entry.slot())),
        }
    }
    Ok(None)
}

/// Visits the clauses in the list of a literal that became false, which was taken out, up to one
/// that is false: its slot. The list is put back.
#[inline(always)]
pub(crate) fn visit_list(
    store: &mut Store,
    lists: &mut WatchLists,
    assumptions: &mut Assumptions,
    reasons: &mut ByKey<u32>,
    l: Lit,
    list: Vec<Watcher>,
) -> Result<Option<u32>, OutOfMemory>
    requires can { CanVisit store.old.live lists.old list.items assumptions.old (at reasons.old) l }
    ensures conflict { IfOk result (λ found. IfSome found (λ s.
        IsFalseAt (maps.get (each_in_order store.new.live)) s assumptions.new.trail.lits)) }
    ensures met { IfOk result (λ found. IfNone found ((s : ℕ) (c : Clause) →
        maps.get store.new.live s ≡ Some c → IsMet c l assumptions.new.trail.lits)) }
    ensures listed { IsListed (maps.get store.new.live) (list_at lists.new) }
    ensures entries { entries_in lists.new ≡ entries_in lists.old + length list.items }
    ensures propagates { PropagatesTo store.old.live store.new.live assumptions.old
        assumptions.new (at reasons.old) (at reasons.new) }
    ensures slots { store.new.slots ≡ store.old.slots }
{
    let mut cursor = Cursor::over(list);
    let found = visit_all(store, lists, assumptions, reasons, &mut cursor, l);
    lists.put_back(l, cursor.into_list());
    found
}

/// Visits all clauses that watch a literal which became false, up to one that is false: its slot.
/// Inlined where literals that waited are followed, it would make the loop over all others carry
/// more numbers.
#[inline(never)]
pub(crate) fn follow(
    store: &mut Store,
    lists: &mut WatchLists,
    assumptions: &mut Assumptions,
    reasons: &mut ByKey<u32>,
    l: Lit,
) -> Result<Option<u32>, OutOfMemory>
    requires can { CanFollow store.old.live lists.old assumptions.old (at reasons.old) }
    requires is_false { IsTrue (has assumptions.old.trail.lits (complement l)) }
    ensures conflict { IfOk result (λ found. IfSome found (λ s.
        IsFalseAt (maps.get (each_in_order store.new.live)) s assumptions.new.trail.lits)) }
    ensures met { IfOk result (λ found. IfNone found ((s : ℕ) (c : Clause) →
        maps.get store.new.live s ≡ Some c → IsMet c l assumptions.new.trail.lits)) }
    ensures followed { Followed store.old.live store.new.live lists.old lists.new
        assumptions.old assumptions.new (at reasons.old) (at reasons.new) }
    ensures slots { store.new.slots ≡ store.old.slots }
{
    if !lists.has_list(l) {
        return Ok(None);
    }
    let list = lists.take_out(l);
    visit_list(store, lists, assumptions, reasons, l, list)
}
