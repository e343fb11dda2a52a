//! By slot the identifiers of the clauses.

ghost use Rattle.std.specs.Prelude.{◌≡◌, ℕ, ◌<◌, ◌==◌, if◌then◌else◌, map};
ghost use Rattle.std.specs.Prelude.{slice_index, OnOk, OnErr};
ghost use Rattle.std.specs.Prelude.{Some, None, true};
ghost use Rattle.std.specs.List.Sorted.{IsPermutation, IsSorted};
ghost use Rattle.std.specs.Ordering.{nat_cmp};
ghost use Rattle.std.specs.FinMap as maps;
ghost use Rattle.std.specs.FinMap.{FinMap};
ghost use Rattle.live_clauses.specs.Code.LiveClauses.{owner_at, AreNoted, AreOwners};

use clause_db::Slot;
use cnf_base::OutOfMemory;
use ids::Ids;
use std::alloc::Global;

/// By slot the identifier of its clause, kept from when it is first asked for.
#[derive(Drop)]
pub(crate) struct Owners {
    by_slot: Vec<u64>,
    is_kept: bool,
}

/// Puts in the identifier of a slot.
fn put(by_slot: &mut Vec<u64>, slot: usize, id: u64) -> Result<(), OutOfMemory>
    ensures ok { OnOk result ((s : ℕ) → slice_index by_slot.new.items s ≡
        (if s == slot then id else slice_index by_slot.old.items s)) }
    ensures err { OnErr result ((s : ℕ) → slice_index by_slot.new.items s ≡
        slice_index by_slot.old.items s) }
{
    if slot < by_slot.len() {
        by_slot[slot] = id;
    } else {
        by_slot.resize(slot, 0)?;
        by_slot.push(id)?;
    }
    Ok(())
}

impl Owners {
    /// None are kept. It takes no memory.
    pub(crate) fn new(alloc: Global) -> Self
        ensures { (ids : FinMap nat_cmp ℕ) → AreOwners result ids }
    {
        Owners {
            by_slot: Vec::new(alloc),
            is_kept: false,
        }
    }

    /// From now on they are kept.
    #[tactic(auto, using(crate::proofs::ClausesLemmas::Owners::all_noted))]
    pub(crate) fn keep(&mut self, ids: &Ids) -> Result<(), OutOfMemory>
        requires { (j k slot : ℕ) → maps.get ids.now j ≡ Some slot →
            maps.get ids.now k ≡ Some slot → j ≡ k }
        ensures owners { AreOwners self.old ids.now → AreOwners self.new ids.now }
        ensures kept { OnOk result (self.new.is_kept ≡ true) }
    {
        if !self.is_kept {
            ids.put_by_slot(&mut self.by_slot)?;
            self.is_kept = true;
        }
        Ok(())
    }

    /// Notes the identifier of a slot, where they are kept.
    pub(crate) fn note(&mut self, slot: Slot, id: u64) -> Result<(), OutOfMemory>
        ensures ok { OnOk result (self.new.is_kept ≡ true → (s : ℕ) →
            owner_at self.new s ≡ (if s == slot then id else owner_at self.old s)) }
        ensures err { OnErr result ((s : ℕ) → owner_at self.new s ≡ owner_at self.old s) }
        ensures kept { self.new.is_kept ≡ self.old.is_kept }
    {
        if self.is_kept {
            put(&mut self.by_slot, slot.number(), id)?;
        }
        Ok(())
    }

    /// The identifier noted for a slot, 0 where there is none.
    fn owner(&self, slot: u32) -> u64
        ensures { result ≡ owner_at self.now slot }
    {
        self.by_slot.get(slot as usize).copied().unwrap_or(0)
    }

    /// The identifiers noted for these slots, in ascending order. `into` is emptied first, and
    /// keeps its room.
    pub(crate) fn identify(&self, slots: &[u32], into: &mut Vec<u64>) -> Result<(), OutOfMemory>
        ensures sorted { OnOk result (IsSorted nat_cmp into.new.items) }
        ensures same { OnOk result
            (IsPermutation (map (owner_at self.now) slots.now) into.new.items) }
    {
        into.clear();
        into.reserve(slots.len())?;
        for slot in slots {
            into.push_reserved(self.owner(*slot));
        }
        into.sort_unstable();
        Ok(())
    }
}
