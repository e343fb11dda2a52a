//! The watch lists of all clauses, made at once.
//!
//! While a formula is read nobody needs them. Lists that grow clause by clause would take most of
//! the time: they are moved whenever they grow, and each entry goes to another place in memory. So
//! they are made before the first assumption, each with the room that it needs. The counts are for
//! that room alone: a list that needs more grows as others do.
//!
//! To fill a list takes two loads, which no cache has where the formula has millions of variables.
//! So the lists are filled part by part, and all clauses are gone over for each.

ghost use Rattle.std.specs.Prelude.{◌≡◌, ℕ, ◌+◌, ◌<◌, ◌≤◌, ◌==◌, ◌&&◌, [], length, IsSome, IfOk};
ghost use Rattle.std.specs.Prelude.{if◌then◌else◌, IsTrue, OnOk, Some};
ghost use Rattle.std.specs.FinMap as maps;
ghost use Rattle.cnf_base.specs.Literals.{Clause, Literal, has, size};
ghost use Rattle.cnf_base.specs.Maps.{sum_over};
ghost use Rattle.clause_db.specs.Store.{is_tautology};
ghost use Rattle.watch_lists.specs.Lists.{entries_in, entries_of, fits, list_at, unfit_entries};
ghost use Rattle.watch_lists.specs.Watched.{AddsFitting, HasAll, IsTautologyList, entries_for};
ghost use Rattle.watch_lists.specs.Watched.{watches};
ghost use Rattle.watch_lists.specs.Code.Part.{is_in, watched_in};

use crate::lists::WatchLists;
use crate::part::{Part, last_for};
use crate::slot_list::SlotList;
use crate::watcher::Watcher;
use clause_db::Store;
use cnf_base::{Lit, OutOfMemory};
use std::alloc::Global;
use tables::{ByKey, key};

/// Counts a literal, up to the greatest number.
fn count(counts: &mut ByKey<u16>, l: Lit) -> Result<(), OutOfMemory> {
    counts.reserve(key(l), 0)?;
    let so_far = counts.get_or(key(l), 0);
    counts.set(key(l), so_far.saturating_add(1));
    Ok(())
}

/// Whether the slot is one of these.
fn is_among(slots: &SlotList, slot: usize) -> bool {
    match u32::try_from(slot) {
        Ok(number) => slots.has(number),
        Err(_) => false,
    }
}

/// How many clauses watch each literal, for the room of its list.
fn count_all(
    alloc: Global,
    store: &Store,
    tautologies: &SlotList,
) -> Result<ByKey<u16>, OutOfMemory> {
    let mut counts = ByKey::new(alloc);
    for slot in 0..store.end() {
        if let Some([first, second, ..]) = store.at(slot)
            && !is_among(tautologies, slot)
        {
            count(&mut counts, *first)?;
            count(&mut counts, *second)?;
        }
    }
    Ok(counts)
}

/// Lists without entries, with room for those of all clauses, and the number of the last part.
fn with_room(
    alloc: Global,
    store: &Store,
    tautologies: &SlotList,
) -> Result<(WatchLists, u32), OutOfMemory>
    ensures lists { IfOk result (λ made. (l : Literal) → list_at made.0 l ≡ []) }
    ensures entries { IfOk result (λ made. entries_in made.0 ≡ 0) }
    ensures few { IfOk result (λ made. made.1 < 16) }
{
    let counts = count_all(alloc, store, tautologies)?;
    let mut lists = WatchLists::new(alloc);
    lists.reserve_each(counts.near())?;
    Ok((lists, last_for(counts.near().len())))
}

/// Puts an entry at the end of the list of a literal, if it is in the part.
#[inline(always)]
fn push_in(lists: &mut WatchLists, part: Part, l: Lit, watcher: Watcher) -> Result<(), OutOfMemory>
    ensures watched { OnOk result ((k s : ℕ) → entries_of s (list_at lists.new k) ≡
        entries_of s (list_at lists.old k)
        + (if is_in part l && k == l && s == watcher.slot then 1 else 0)) }
    ensures fitting { OnOk result ((k s : ℕ) (c : Clause) →
        (s ≡ watcher.slot → IsTrue (fits c l watcher.blocking watcher.is_binary)) →
        unfit_entries s c k (list_at lists.new k) ≤ unfit_entries s c k (list_at lists.old k)) }
    ensures more { OnOk result (entries_in lists.new ≡ entries_in lists.old
        + (if is_in part l then 1 else 0)) }
{
    if part.has(l) {
        lists.push(l, watcher)?;
    }
    Ok(())
}

/// Puts the slot of a clause into the lists of those of its first two literals that are in the
/// part, unless it has fewer, or is a tautology.
#[inline(always)]
fn watch_in(
    lists: &mut WatchLists,
    part: Part,
    clause: &[Lit],
    number: u32,
    tautologies: &SlotList,
) -> Result<(), OutOfMemory>
    requires low { number < 2147483648 }
    requires complements { has tautologies.now number ≡ is_tautology clause.now }
    requires different { size clause.now ≡ length clause.now }
    ensures watched { OnOk result ((l s : ℕ) → entries_of s (list_at lists.new l) ≡
        entries_of s (list_at lists.old l)
        + (if is_in part l && watches clause.now l && s == number then 1 else 0)) }
    ensures fitting { OnOk result (AddsFitting clause.now number lists.old lists.new) }
    ensures more { OnOk result (entries_in lists.new ≡ entries_in lists.old
        + watched_in (is_in part) clause.now) }
{
    let [first, second, ..] = clause else {
        return Ok(());
    };
    if !(part.has(*first) || part.has(*second)) || tautologies.has(number) {
        return Ok(());
    }
    let is_binary = clause.len() == 2;
    push_in(
        lists,
        part,
        *first,
        Watcher::new(number, *second, is_binary),
    )?;
    push_in(
        lists,
        part,
        *second,
        Watcher::new(number, *first, is_binary),
    )?;
    Ok(())
}

/// Fills the lists of a part.
#[tactic(auto, using(crate::proofs::WatchListsLemmas::Entries::entry_steps))]
fn fill(
    lists: &mut WatchLists,
    part: Part,
    store: &Store,
    tautologies: &SlotList,
) -> Result<(), OutOfMemory>
    requires tautologies { IsTautologyList (maps.get store.now.live) tautologies.now }
    requires low { (s : ℕ) → IsSome (maps.get store.now.live s) → s < 2147483648 }
    ensures watched { OnOk result ((l s : ℕ) → entries_of s (list_at lists.new l) ≡
        entries_of s (list_at lists.old l)
        + (if is_in part l then entries_for (maps.get store.now.live s) l else 0)) }
    ensures fitting { OnOk result ((l s : ℕ) (c : Clause) → maps.get store.now.live s ≡ Some c →
        unfit_entries s c l (list_at lists.new l) ≤ unfit_entries s c l (list_at lists.old l)) }
    ensures more { OnOk result (entries_in lists.new ≡ entries_in lists.old
        + sum_over (watched_in (is_in part)) store.now.live) }
{
    store.recall_invariant();
    for number in 0..store.end() {
        if let Some(clause) = store.at(number) {
            watch_in(lists, part, clause, number as u32, tautologies)?;
        }
    }
    Ok(())
}

/// The watch lists of all clauses of two literals or more, but for the tautologies.
///
/// # Errors
///
/// Where memory runs out.
pub fn listed(
    alloc: Global,
    store: &Store,
    tautologies: &SlotList,
) -> Result<WatchLists, OutOfMemory>
    requires tautologies { IsTautologyList (maps.get store.now.live) tautologies.now }
    requires low { (s : ℕ) → IsSome (maps.get store.now.live s) → s < 2147483648 }
    ensures { IfOk result (λ lists. HasAll store.now.live lists) }
{
    store.recall_invariant();
    let (mut lists, last) = with_room(alloc, store, tautologies)?;
    for number in 0..last + 1 {
        fill(&mut lists, Part { number, last }, store, tautologies)?;
    }
    Ok(lists)
}
