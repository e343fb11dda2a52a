//! The entries of one clause in the lists.

ghost use Rattle.std.specs.Prelude.{◌≡◌, ℕ, ◌+◌, ◌<◌, ◌==◌, ◌&&◌, ◌||◌, Some, length, false};
ghost use Rattle.std.specs.Prelude.{if◌then◌else◌, IsTrue, IsFalse, IsSome, OnOk, OnErr};
ghost use Rattle.std.specs.FinMap as maps;
ghost use Rattle.cnf_base.specs.Literals.{Clause, has, size};
ghost use Rattle.watch_lists.specs.Lists.{entries_in, entries_of};
ghost use Rattle.watch_lists.specs.Lists.{list_at, times_in};
ghost use Rattle.watch_lists.specs.Watched.{AddsFitting, HasEntry, IsListed, IsUnitList};
ghost use Rattle.watch_lists.specs.Watched.{IsTautologyList, is_unit_or_empty, is_unwatched};
ghost use Rattle.clause_db.specs.Store.{is_tautology};

use crate::lists::WatchLists;
use crate::slot_list::SlotList;
use crate::watcher::Watcher;
use clause_db::{Slot, Store};
use cnf_base::{Lit, OutOfMemory};

/// Puts the slot of a clause into the lists of its first two literals, unless it has fewer, or a
/// literal and its complement.
fn watch_first_two(
    lists: &mut WatchLists,
    clause: &[Lit],
    number: u32,
    has_complements: bool,
) -> Result<(), OutOfMemory>
    requires low { number < 2147483648 }
    requires complements { has_complements ≡ is_tautology clause.now }
    requires different { size clause.now ≡ length clause.now }
    ensures watched { OnOk result (HasEntry clause.now number lists.new lists.old) }
    ensures fitting { AddsFitting clause.now number lists.old lists.new }
    ensures more { OnOk result (entries_in lists.new ≡
        entries_in lists.old + (if is_unwatched clause.now then 0 else 2)) }
    ensures err_watched { OnErr result ((l s : ℕ) → entries_of s (list_at lists.new l) ≡
        entries_of s (list_at lists.old l)) }
    ensures err_entries { OnErr result (entries_in lists.new ≡ entries_in lists.old) }
{
    if clause.len() < 2 || has_complements {
        return Ok(());
    }
    lists.watch(clause[0], clause[1], number, clause.len() == 2)
}

/// Puts the slot of a clause into the lists of its first two literals, unless these are still to be
/// made, or into that of the units or of the tautologies.
///
/// # Errors
///
/// Where memory runs out, or no entry can have the slot. All lists then have what they had.
#[tactic(auto, using(crate::proofs::WatchListsLemmas::Entries::entry_steps))]
pub fn add_entries(
    store: &Store,
    lists: &mut WatchLists,
    units: &mut SlotList,
    tautologies: &mut SlotList,
    slot: Slot,
    has_complements: bool,
    is_loading: bool,
) -> Result<(), OutOfMemory>
    requires alive { IsSome (maps.get store.now.live slot) }
    requires complements { (c : Clause) → maps.get store.now.live slot ≡ Some c →
        has_complements ≡ is_tautology c }
    requires absent { IsFalse (has units.old slot) }
    requires no_tautology { IsFalse (has tautologies.old slot) }
    ensures watched { OnOk result ((c : Clause) → maps.get store.now.live slot ≡ Some c →
        is_loading ≡ false → HasEntry c slot lists.new lists.old) }
    ensures fitting { (c : Clause) → maps.get store.now.live slot ≡ Some c →
        AddsFitting c slot lists.old lists.new }
    ensures rest { OnOk result ((c : Clause) → maps.get store.now.live slot ≡ Some c →
        (s : ℕ) → times_in s units.new ≡ times_in s units.old
        + (if is_unit_or_empty c && s == slot then 1 else 0)) }
    ensures tautologies { OnOk result ((c : Clause) → maps.get store.now.live slot ≡ Some c →
        (s : ℕ) → times_in s tautologies.new ≡ times_in s tautologies.old
        + (if is_tautology c && s == slot then 1 else 0)) }
    ensures more { OnOk result ((c : Clause) → maps.get store.now.live slot ≡ Some c →
        entries_in lists.new ≡
        entries_in lists.old + (if is_loading || is_unwatched c then 0 else 2)) }
    ensures longer { OnOk result ((c : Clause) → maps.get store.now.live slot ≡ Some c →
        length units.new ≡ length units.old + (if is_unit_or_empty c then 1 else 0)) }
    ensures low { OnOk result (slot < 2147483648) }
    ensures err_watched { OnErr result ((l s : ℕ) → entries_of s (list_at lists.new l) ≡
        entries_of s (list_at lists.old l)) }
    ensures err_entries { OnErr result (entries_in lists.new ≡ entries_in lists.old) }
    ensures err_rest { OnErr result (units.new ≡ units.old) }
    ensures err_tautologies { OnErr result (tautologies.new ≡ tautologies.old) }
    ensures different { OnOk result ((c : Clause) → maps.get store.now.live slot ≡ Some c →
        size c ≡ length c) }
{
    if slot.number() > Watcher::MAX_SLOT as usize {
        return Err(OutOfMemory);
    }
    let number = slot.number() as u32;
    let clause = store.clause(slot);
    if clause.len() < 2 {
        units.add(number)
    } else if has_complements {
        tautologies.add(number)
    } else if is_loading {
        Ok(())
    } else {
        watch_first_two(lists, clause, number, has_complements)
    }
}

/// Takes the slot of a clause out of all lists that it stands in. It takes no memory.
#[tactic(auto, using(crate::proofs::WatchListsLemmas::Entries::entry_steps))]
pub fn remove_entries(
    store: &Store,
    lists: &mut WatchLists,
    units: &mut SlotList,
    tautologies: &mut SlotList,
    slot: Slot,
    is_loading: bool,
)
    requires alive { IsSome (maps.get store.now.live slot) }
    requires low { slot < 2147483648 }
    requires listed { is_loading ≡ false → IsListed (maps.get store.now.live) (list_at lists.old) }
    requires rest { IsUnitList (maps.get store.now.live) units.old }
    requires tautologies { IsTautologyList (maps.get store.now.live) tautologies.old }
    ensures watched { (c : Clause) → maps.get store.now.live slot ≡ Some c →
        is_loading ≡ false → HasEntry c slot lists.old lists.new }
    ensures fitting { (c : Clause) → maps.get store.now.live slot ≡ Some c →
        AddsFitting c slot lists.old lists.new }
    ensures rest { (c : Clause) → maps.get store.now.live slot ≡ Some c →
        (s : ℕ) → times_in s units.new + (if is_unit_or_empty c && s == slot then 1 else 0) ≡
        times_in s units.old }
    ensures tautologies { (c : Clause) → maps.get store.now.live slot ≡ Some c →
        (s : ℕ) → times_in s tautologies.new + (if is_tautology c && s == slot then 1 else 0) ≡
        times_in s tautologies.old }
    ensures fewer { (c : Clause) → maps.get store.now.live slot ≡ Some c →
        entries_in lists.new + (if is_loading || is_unwatched c then 0 else 2) ≡
        entries_in lists.old }
    ensures shorter { (c : Clause) → maps.get store.now.live slot ≡ Some c →
        length units.new + (if is_unit_or_empty c then 1 else 0) ≡ length units.old }
    ensures different { (c : Clause) → maps.get store.now.live slot ≡ Some c →
        size c ≡ length c }
{
    let number = slot.number() as u32;
    let clause = store.clause(slot);
    if clause.len() < 2 {
        units.remove(number);
    } else if tautologies.has(number) {
        tautologies.remove(number);
    } else if !is_loading {
        let is_binary = clause.len() == 2;
        lists.take_off(clause[0], number, is_binary);
        lists.take_off(clause[1], number, is_binary);
    }
}
