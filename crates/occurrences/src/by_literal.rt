//! By literal the slots of the clauses that have it.

ghost use Rattle.std.specs.Prelude.{◌≡◌, ℕ, ◌==◌, ◌&&◌, ◌||◌, ◌++◌, ◌≤◌, []};
ghost use Rattle.std.specs.Prelude.{not, true, false, OnOk, OnErr};
ghost use Rattle.std.specs.Prelude.{IsSome, ◌≢◌, map};
ghost use Rattle.std.specs.List.{list_any, list_all};
ghost use Rattle.std.specs.List.Sorted.{IsStrictlyIncreasing};
ghost use Rattle.cnf_base.specs.Literals.{complement, has};
ghost use Rattle.tables.specs.Lists.{list_at};
ghost use Rattle.tables.specs.ByKey.{at};
ghost use Rattle.occurrences.specs.Code.Known.{is_known};

use crate::occurrence::{Occurrence, add, births_at, clean, rid_all};
use cnf_base::{Lit, OutOfMemory};
use std::alloc::Global;
use tables::{ByKey, Lists, key};

/// By literal the slots of the clauses that have it.
///
/// A slot is forgotten at once: entries that no longer count are taken out where a list is full or
/// read.
#[derive(Drop)]
pub struct Occurrences {
    /// By slot how often it was forgotten.
    births: ByKey<u32>,
    lists: Lists<Occurrence>,
    ghost low: { (l : ℕ) → 4294967296 ≤ l → list_at lists l ≡ [] },
    ghost known: { (l : ℕ) → list_all (is_known births) (list_at lists l) ≡ true },
}

#[tactic(auto, unfolding(crate::specs::Occurrences::occurs))]
impl Occurrences {
    ghost use Rattle.occurrences.specs.Occurrences.{occurs};

    /// No slot occurs. It takes no memory.
    pub fn new(alloc: Global) -> Self
        ensures { (l s : ℕ) → occurs result l s ≡ false }
    {
        Occurrences {
            births: ByKey::new(alloc),
            lists: Lists::new(alloc),
        }
    }

    /// Notes that the clause in the slot has the literal.
    fn push(&mut self, l: Lit, slot: u32) -> Result<(), OutOfMemory>
        requires { IsSome (at self.old.births slot) }
        ensures ok { OnOk result ((k s : ℕ) → occurs self.new k s ≡
            (occurs self.old k s || (k == l && s == slot))) }
        ensures err { OnErr result ((k s : ℕ) → occurs self.new k s ≡ occurs self.old k s) }
        ensures births { self.new.births ≡ self.old.births }
    {
        let key = key(l);
        let birth = births_at(&self.births, slot);
        let entry = Occurrence { slot, birth };
        if !self.lists.has_list(key) {
            return self.lists.push(key, entry);
        }
        let mut list = self.lists.take_out(key);
        let added = add(&mut list, &self.births, entry);
        self.lists.put_back(key, list);
        added
    }

    /// Notes that the clause in the slot has the literals, or else some of them.
    fn push_all(&mut self, slot: u32, lits: &[Lit]) -> Result<(), OutOfMemory>
        requires { IsSome (at self.old.births slot) }
        ensures ok { OnOk result ((l s : ℕ) → occurs self.new l s ≡
            (occurs self.old l s || (has lits.now l && s == slot))) }
        ensures others { OnErr result ((l s : ℕ) → s ≢ slot →
            occurs self.new l s ≡ occurs self.old l s) }
    {
        for l in lits {
            self.push(*l, slot)?;
        }
        Ok(())
    }

    /// Notes that the clause in the slot has the literals.
    ///
    /// # Errors
    ///
    /// Where memory runs out. What occurs is then as it was.
    pub fn add(&mut self, slot: u32, lits: &[Lit]) -> Result<(), OutOfMemory>
        requires absent { (l : ℕ) → occurs self.old l slot ≡ false }
        ensures ok { OnOk result ((l s : ℕ) → occurs self.new l s ≡
            (occurs self.old l s || (has lits.now l && s == slot))) }
        ensures err { OnErr result ((l s : ℕ) → occurs self.new l s ≡ occurs self.old l s) }
    {
        self.births.reserve(slot, 0)?;
        match self.push_all(slot, lits) {
            Ok(()) => Ok(()),
            Err(refused) => {
                self.forget(slot);
                Err(refused)
            }
        }
    }

    /// The slot occurs no longer. It takes no memory.
    pub fn forget(&mut self, slot: u32)
        ensures { (l s : ℕ) → occurs self.new l s ≡ (occurs self.old l s && not (s == slot)) }
    {
        if let Some(births) = self.births.get(slot) {
            match births.checked_add(1) {
                Some(more) => self.births.set(slot, more),
                None => {
                    rid_all(&mut self.lists, slot);
                    self.births.set(slot, 0);
                }
            }
        }
    }

    /// Puts the slots that occur with the literal at the end.
    fn gather(&mut self, l: Lit, into: &mut Vec<u32>) -> Result<(), OutOfMemory>
        ensures occurs { (k s : ℕ) → occurs self.new k s ≡ occurs self.old k s }
        ensures slots { OnOk result ((s : ℕ) → has into.new.items s ≡
            (has into.old.items s || occurs self.old l s)) }
    {
        let key = key(l);
        if !self.lists.has_list(key) {
            return Ok(());
        }
        let mut list = self.lists.take_out(key);
        clean(&mut list, &self.births);
        let pushed = push_slots(list.as_slice(), into);
        self.lists.put_back(key, list);
        pushed
    }

    /// Gathers the slots that occur with the complement of one of the literals, in ascending order.
    /// `into` is emptied first, and keeps its room.
    ///
    /// # Errors
    ///
    /// Where memory runs out.
    pub fn slots_touched(&mut self, lits: &[Lit], into: &mut Vec<u32>) -> Result<(), OutOfMemory>
        ensures ascending { OnOk result (IsStrictlyIncreasing into.new.items) }
        ensures slots { OnOk result ((s : ℕ) → has into.new.items s ≡
            list_any (λ l. occurs self.old (complement l) s) lits.now) }
        ensures same { (l s : ℕ) → occurs self.new l s ≡ occurs self.old l s }
    {
        into.clear();
        for l in lits {
            self.gather(l.neg(), into)?;
        }
        order(into);
        Ok(())
    }
}

/// Puts the slots of the entries at the end.
fn push_slots(list: &[Occurrence], into: &mut Vec<u32>) -> Result<(), OutOfMemory>
    ensures { OnOk result (into.new.items ≡ into.old.items ++ map (λ e. e.slot) list.now) }
{
    into.reserve(list.len())?;
    for entry in list {
        into.push_reserved(entry.slot);
    }
    Ok(())
}

/// Brings slots into ascending order, each once.
fn order(slots: &mut Vec<u32>)
    ensures ascending { IsStrictlyIncreasing slots.new.items }
    ensures same { (s : ℕ) → has slots.new.items s ≡ has slots.old.items s }
{
    slots.sort_unstable();
    slots.dedup();
}
