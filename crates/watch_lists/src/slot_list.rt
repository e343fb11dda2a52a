//! The slots of clauses that no watch list has.
//!
//! Each has its place noted, so that one is taken out without a walk: a formula may have a million.

ghost use Rattle.std.specs.Prelude.{◌≡◌, ℕ, ◌+◌, ◌==◌, ◌++◌, ◌∷◌, [], length, if◌then◌else◌};
ghost use Rattle.std.specs.Prelude.{IsTrue, IsFalse, OnOk, OnErr};
ghost use Rattle.cnf_base.specs.Literals.{has};
ghost use Rattle.watch_lists.specs.Lists.{times_in};

use cnf_base::OutOfMemory;
use std::alloc::Global;
use std::marker::Model;
use tables::ByKey;

/// Slots, none of them twice. One is taken out without a walk.
#[derive(Drop)]
pub struct SlotList {
    slots: Vec<u32>,
    /// By slot its place.
    places: ByKey<u32>,
}

impl Model for SlotList {
    ghost use Rattle.std.specs.Prelude.{List, ℕ};
    ghost use Rattle.std.specs.Coded.{coded_list, coded_ℕ};
    ghost use Rattle.tables.specs.ByKey.{at};
    ghost use Rattle.watch_lists.specs.Code.SlotList.{IsPlaced};

    ghost Value = { List ℕ };

    ghost coded = { coded_list coded_ℕ };

    // Each field has to be named here. The places are numbers by slot.
    ghost view = { λ record { slots = slots; places = _ }. slots.items };

    ghost invariant = { λ s. IsPlaced s.slots.items (at s.places) };
}

impl SlotList {
    /// No slots.
    pub fn new(alloc: Global) -> Self
        ensures { result ≡ [] }
    {
        SlotList {
            slots: Vec::new(alloc),
            places: ByKey::new(alloc),
        }
    }

    /// The slots.
    pub fn slots(&self) -> &[u32]
        ensures { result.now ≡ self.now }
    {
        self.slots.as_slice()
    }

    /// Whether it has the slot.
    #[tactic(auto, using(crate::proofs::WatchListsLemmas::SlotList::place_steps))]
    pub fn has(&self, slot: u32) -> bool
        ensures { result ≡ has self.now slot }
    {
        if self.slots.is_empty() {
            return false;
        }
        let Some(place) = self.places.get(slot) else {
            return false;
        };
        let place = place as usize;
        place < self.slots.len() && self.slots[place] == slot
    }

    /// Puts a slot at the end.
    pub fn add(&mut self, slot: u32) -> Result<(), OutOfMemory>
        requires { IsFalse (has self.old slot) }
        ensures ok { OnOk result (self.new ≡ self.old ++ slot ∷ []) }
        ensures err { OnErr result (self.new ≡ self.old) }
    {
        let Ok(place) = u32::try_from(self.slots.len()) else {
            return Err(OutOfMemory);
        };
        self.slots.reserve(1)?;
        self.places.reserve(slot, place)?;
        self.places.set(slot, place);
        self.slots.push_reserved(slot);
        Ok(())
    }

    /// Takes a slot out. The last one takes its place. It takes no memory.
    #[tactic(auto, using(crate::proofs::WatchListsLemmas::SlotList::place_steps))]
    pub fn remove(&mut self, slot: u32)
        requires { IsTrue (has self.old slot) }
        ensures times { (s : ℕ) → times_in s self.new + (if s == slot then 1 else 0) ≡
            times_in s self.old }
        ensures len { length self.new + 1 ≡ length self.old }
    {
        if let Some(place) = self.places.get(slot) {
            let last = self.slots[self.slots.len() - 1];
            self.slots.swap_remove(place as usize);
            self.places.set(last, place);
        }
    }
}
