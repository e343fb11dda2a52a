//! The entries of the lists.

ghost use Rattle.std.specs.Prelude.{◌≡◌, ℕ, ◌==◌, ◌<◌, ◌≤◌, ◌++◌, ◌∷◌, []};
ghost use Rattle.std.specs.Prelude.{filter, not, OnOk, OnErr};
ghost use Rattle.std.specs.Prelude.{vec_len, vec_capacity, if◌then◌else◌};
ghost use Rattle.tables.specs.Lists.{list_at};
ghost use Rattle.occurrences.specs.Entries.{births_of, counts};
ghost use Rattle.occurrences.specs.Code.Known.{AreAlike};

use cnf_base::OutOfMemory;
use tables::{ByKey, Lists};

/// An entry in the list of a literal: a slot whose clause has it, where the slot is still as it was
/// when the entry was made.
///
/// It has eight bytes: the lists are as long as all clauses.
#[derive(Clone, Copy)]
pub struct Occurrence {
    pub slot: u32,
    /// How often the slot was forgotten before.
    pub birth: u32,
}

/// By how many entries a list grows at least.
const LEAST: usize = 2;

/// How often the slot was forgotten.
pub(crate) fn births_at(births: &ByKey<u32>, slot: u32) -> u32
    ensures { result ≡ births_of births.now slot }
{
    births.get_or(slot, 0)
}

/// Whether the slot wasn't forgotten since the entry was made.
fn is_alive(births: &ByKey<u32>, entry: &Occurrence) -> bool
    ensures { result ≡ counts births.now entry.now }
{
    births_at(births, entry.slot) == entry.birth
}

/// Takes out the entries of slots that were forgotten.
pub(crate) fn clean(list: &mut Vec<Occurrence>, births: &ByKey<u32>)
    ensures items { list.new.items ≡ filter (counts births.now) list.old.items }
    ensures capacity { vec_capacity list.new ≡ vec_capacity list.old }
{
    list.retain(|entry| is_alive(births, entry));
}

/// Lengthens a list that is cleaned, where half of its room or more is taken.
fn grow(list: &mut Vec<Occurrence>) -> Result<(), OutOfMemory>
    ensures items { list.new.items ≡ list.old.items }
    ensures room { OnOk result (vec_len list.new < vec_capacity list.new) }
{
    if list.len() >= list.capacity() / 2 {
        list.reserve_exact(list.len() / 2 + LEAST)?;
    }
    Ok(())
}

/// Makes room in a list. A full one is cleaned first, and grows only where half of its entries or
/// more still count.
#[tactic(auto, using(crate::proofs::EntryLemmas::alike_cleaned))]
fn make_room(list: &mut Vec<Occurrence>, births: &ByKey<u32>) -> Result<(), OutOfMemory>
    ensures alike { AreAlike births.now list.old.items list.new.items }
    ensures room { OnOk result (vec_len list.new < vec_capacity list.new) }
{
    if list.len() < list.capacity() {
        return Ok(());
    }
    clean(list, births);
    grow(list)
}

/// Puts an entry at the end of a list.
#[tactic(auto, using(crate::proofs::EntryLemmas::alike_push))]
pub(crate) fn add(
    list: &mut Vec<Occurrence>,
    births: &ByKey<u32>,
    entry: Occurrence,
) -> Result<(), OutOfMemory>
    ensures ok { OnOk result (AreAlike births.now (list.old.items ++ entry ∷ []) list.new.items) }
    ensures err { OnErr result (AreAlike births.now list.old.items list.new.items) }
{
    make_room(list, births)?;
    list.push_reserved(entry);
    Ok(())
}

/// Takes out the entries of a slot.
fn rid(list: &mut Vec<Occurrence>, slot: u32)
    ensures { list.new.items ≡ filter (λ e. not (e.slot == slot)) list.old.items }
{
    list.retain(|entry| entry.slot != slot);
}

/// Takes the entries of a slot out of the list of a key.
fn rid_at(lists: &mut Lists<Occurrence>, key: u32, slot: u32)
    ensures lists { (k : ℕ) → list_at lists.new k ≡
        (if k == key then filter (λ e. not (e.slot == slot)) (list_at lists.old k)
        else list_at lists.old k) }
{
    if lists.has_list(key) {
        let mut list = lists.take_out(key);
        rid(&mut list, slot);
        lists.put_back(key, list);
    }
}

/// Takes the entries of a slot out of all lists.
pub(crate) fn rid_all(lists: &mut Lists<Occurrence>, slot: u32)
    ensures lists { (k : ℕ) → k < 4294967296 → list_at lists.new k ≡
        filter (λ e. not (e.slot == slot)) (list_at lists.old k) }
    ensures beyond { (k : ℕ) → 4294967296 ≤ k → list_at lists.new k ≡ list_at lists.old k }
{
    for key in 0..4294967296u64 {
        rid_at(lists, key as u32, slot);
    }
}
