//! The live clauses, each at its identifier, and the sum of their sizes.

ghost use Rattle.std.specs.Prelude.{◌≡◌, ◌≢◌, ℕ, ◌-◌, ◌<◌, ◌≤◌, ◌^◌, min, Some, None, is_some};
ghost use Rattle.std.specs.Prelude.{length, List, OnOk, OnErr, IfOk, IfSome, IfNone, IsTrue};
ghost use Rattle.std.specs.List.Sorted.{IsStrictlyIncreasing};
ghost use Rattle.std.specs.Option.{option_copied};
ghost use Rattle.std.specs.FinMap as maps;
ghost use Rattle.cnf_base.specs.Literals.{complement, has};
ghost use Rattle.theory.specs.Lrat.{SameClauses, with_clause, without_id};
ghost use Rattle.theory.specs.Sizes.{total};
ghost use Rattle.live_clauses.specs.LiveClauses.{no_live_clauses, lrat_state, Holds, AllHold};
ghost use Rattle.live_clauses.specs.Code.LiveClauses.{AreOwners};

use crate::owners::Owners;
use clause_db::{NoIndex, Slot, Slots, Store};
use cnf_base::{Lit, OutOfMemory};
use ids::Ids;
use std::alloc::Global;
use std::marker::Model;

/// The live clauses. Contracts see them as a finite map, with the greatest identifier so far and
/// what is kept.
#[derive(Drop)]
pub struct LiveClauses {
    store: Store<Slots, NoIndex>,
    ids: Ids,
    top: u64,
    owners: Owners,
    /// The slots found last, whose room is kept.
    slots: Vec<u32>,
}

impl Model for LiveClauses {
    ghost use Rattle.std.specs.Prelude.{◌≡◌};
    ghost use Rattle.clause_db.specs.Store.{literals_in};
    ghost use Rattle.live_clauses.specs.LiveClauses.{LiveClausesState};
    ghost use Rattle.live_clauses.specs.Code.LiveClauses.{live_clauses_code, joined, held_at};
    ghost use Rattle.live_clauses.specs.Code.LiveClauses.{IsPaired, IsTally, AreOwners};

    ghost Value = { LiveClausesState };

    ghost coded = { live_clauses_code };

    // Each field has to be named here, and those of the owners in `AreOwners`. Of them the store
    // alone has lists of literals: the others have identifiers and slots.
    ghost view = { λ record { store = store; ids = ids; top = top; owners = _; slots = _ }. record {
      live = joined ids store.live;
      top = top;
      stored = store.stored;
    } };

    ghost invariant = { λ s. (IsPaired s.ids s.store.live ×
        IsTally (held_at s.ids s.store.live) s.top (literals_in s.store.live)) ×
        (s.store.stored ≡ literals_in s.store.live) × AreOwners s.owners s.ids };
}

/// Binds an identifier to a slot that is free, and notes it as the slot's.
fn bind(ids: &mut Ids, owners: &mut Owners, id: u64, slot: Slot) -> Result<(), OutOfMemory>
    requires unbound { maps.get ids.old id ≡ None }
    requires free { (k s : ℕ) → maps.get ids.old k ≡ Some s → s ≢ slot }
    ensures ok { OnOk result (ids.new ≡ maps.insert ids.old id slot) }
    ensures err { OnErr result (ids.new ≡ ids.old) }
    ensures owners { AreOwners owners.old ids.old → AreOwners owners.new ids.new }
{
    owners.note(slot, id)?;
    ids.bind(id, slot)
}

impl LiveClauses {
    pub fn new(alloc: Global) -> Result<Self, OutOfMemory>
        ensures { IfOk result (λ live. live ≡ no_live_clauses) }
    {
        let store = Store::without_index(alloc)?;
        let ids = Ids::new(alloc)?;
        Ok(LiveClauses {
            store,
            ids,
            top: 0,
            owners: Owners::new(alloc),
            slots: Vec::new(alloc),
        })
    }

    /// The clause that is alive under the identifier.
    #[tactic(auto, using(crate::proofs::ClausesLemmas::Joined::joined_is))]
    pub fn get(&self, id: u64) -> Option<&[Lit]>
        ensures { option_copied result ≡ maps.get self.now.live id }
    {
        match self.ids.slot_of(id) {
            Some(slot) => Some(self.store.clause(slot)),
            None => None,
        }
    }

    /// The lowest identifier from this one on under which a clause is alive, and the clause.
    #[tactic(auto, using(crate::proofs::ClausesLemmas::Joined::joined_is))]
    pub fn next(&self, from: u64) -> Option<(u64, &[Lit])>
        ensures found { IfSome result (λ e. (from ≤ e.0) ×
            (maps.get self.now.live e.0 ≡ Some e.1.now)) }
        ensures passed_over { IfSome result (λ e. (k : ℕ) → from ≤ k → k < e.0 →
            maps.get self.now.live k ≡ None) }
        ensures none { IfNone result
            ((k : ℕ) → from ≤ k → maps.get self.now.live k ≡ None) }
    {
        match self.ids.next_bound(from) {
            Some(bound) => Some((bound.0, self.store.clause(bound.1))),
            None => None,
        }
    }

    /// A number that no list of different identifiers, of clauses that hold the literal, exceeds.
    ///
    /// The first call goes over all clauses, and counts how many have each literal. From then on
    /// this is kept, and a call takes constant time.
    ///
    /// # Errors
    ///
    /// Where memory runs out.
    pub fn holding(&mut self, l: Lit) -> Result<u64, OutOfMemory>
        ensures bound { IfOk result (λ n. (ids : List ℕ) →
            AllHold (maps.get self.old.live) l ids → length ids ≤ n) }
        ensures same { self.new ≡ self.old }
    {
        self.store.keep_counts()?;
        Ok(self.store.count_with(l))
    }

    /// Gathers the identifiers of the clauses that the literal touches, in ascending order: that
    /// have its complement. `into` is emptied first, and keeps its room.
    ///
    /// The first call goes over all clauses. What it notes of them is kept from then on, and a call
    /// takes as long as sorting what is found.
    ///
    /// # Errors
    ///
    /// Where memory runs out.
    pub fn touched(&mut self, l: Lit, into: &mut Vec<u64>) -> Result<(), OutOfMemory>
        ensures ascending { OnOk result (IsStrictlyIncreasing into.new.items) }
        ensures each { OnOk result ((k : ℕ) → IsTrue (has into.new.items k) →
            Holds (maps.get self.old.live) (complement l) k) }
        ensures all { OnOk result ((k : ℕ) → Holds (maps.get self.old.live) (complement l) k →
            IsTrue (has into.new.items k)) }
        ensures same { self.new ≡ self.old }
    {
        self.owners.keep(&self.ids)?;
        self.store.slots_touched(&[l], &mut self.slots)?;
        self.owners.identify(self.slots.as_slice(), into)
    }

    /// The greatest identifier so far.
    #[tactic(auto, using(crate::proofs::ClausesLemmas::Joined::joined_is))]
    pub fn top(&self) -> u64
        ensures top { result ≡ self.now.top }
        ensures none_above { (k : ℕ) → self.now.top < k → maps.get self.now.live k ≡ None }
    {
        self.top
    }

    /// The sum of the sizes of the live clauses. It saturates.
    #[tactic(auto, using(crate::proofs::ClausesLemmas::Joined::joined_is))]
    pub fn literals(&self) -> u64
        ensures value { result ≡ min (total (lrat_state self.now)) (2 ^ 64 - 1) }
        ensures live_alone { self.now.stored ≡ total (lrat_state self.now) }
    {
        self.store.literals()
    }

    /// Adds the clause under an identifier past all earlier ones.
    pub fn add(&mut self, id: u64, lits: &[Lit]) -> Result<(), OutOfMemory>
        requires { self.old.top < id }
        ensures live { OnOk result (SameClauses (maps.get self.new.live)
            (with_clause (maps.get self.old.live) id lits.now)) }
        ensures top { OnOk result (self.new.top ≡ id) }
        ensures refused { OnErr result (self.new.stored ≡ self.old.stored) }
    {
        let slot = self.store.insert(lits)?;
        if bind(&mut self.ids, &mut self.owners, id, slot).is_err() {
            self.store.remove(slot);
            return Err(OutOfMemory);
        }
        self.top = id;
        Ok(())
    }

    /// Takes the clause off, and tells whether it was alive.
    pub fn remove(&mut self, id: u64) -> bool
        ensures was { result ≡ is_some (maps.get self.old.live id) }
        ensures live { (k : ℕ) → maps.get self.new.live k ≡ without_id
            (maps.get self.old.live) id k }
        ensures top { self.new.top ≡ self.old.top }
        ensures fewer { self.new.stored ≤ self.old.stored }
    {
        match self.ids.unbind(id) {
            Some(slot) => {
                self.store.remove(slot);
                true
            }
            None => false,
        }
    }
}
