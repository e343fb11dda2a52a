//! A memory of clauses, each in a slot of its own.

ghost use Rattle.std.specs.Prelude.{◌≡◌, ◌<◌, ◌≤◌, OnOk};
ghost use Rattle.slab.specs.Slab.{HasRoomFor};

use crate::Memory;
use cnf_base::{Lit, OutOfMemory};
use slab::Slab;
use smallvec::SmallVec;
use std::alloc::Global;
use std::marker::Model;

/// How many literals lie in the slot itself. Fewer would make no slot smaller.
const SHORT: usize = 4;

/// There are no more slots than this, so that their numbers have four bytes.
const MOST: usize = 4294967295;

/// The live clauses of a proof checker, each in a slot that the memory picks: a short clause lies
/// in its slot, of 40 bytes, and a longer one in an allocation of its own.
///
/// Contracts see it as a finite map from slots to clauses, how many slots have been used, and how
/// many literals it keeps.
#[derive(Drop)]
pub struct Slots {
    alloc: Global,
    clauses: Slab<SmallVec<Lit, SHORT>>,
    /// No slot from this number on has ever had a clause.
    end: usize,
}

impl Model for Slots {
    ghost use Rattle.clause_memory.specs.Memory.{MemoryState};
    ghost use Rattle.clause_memory.specs.Code.Slots.{IsSlots, slots_code, slots_seen};

    ghost Value = { MemoryState };

    ghost coded = { slots_code };

    // Each field has to be named here. Of them the slab alone has literals.
    ghost view = { λ record { alloc = _; clauses = clauses; end = end }. slots_seen clauses.slots end };

    ghost invariant = { λ s. IsSlots s.clauses.slots s.end };
}

/// Makes room for a further clause. Full slots grow by an eighth and not to twice their number,
/// since they are much of what a program keeps.
fn grow(clauses: &mut Slab<SmallVec<Lit, SHORT>>) -> Result<(), OutOfMemory>
    ensures same { clauses.new.slots ≡ clauses.old.slots }
    ensures next { clauses.new.vacant_key ≡ clauses.old.vacant_key }
    ensures room { OnOk result (HasRoomFor clauses.new 1) }
{
    if clauses.len() == clauses.capacity() {
        clauses.reserve_exact((clauses.len() / 8).max(16))?;
    }
    Ok(())
}

impl Memory for Slots {
    ghost seen = { λ s. s };

    #[tactic(auto, using(crate::proofs::SlotLemmas::slot_facts))]
    fn new(alloc: Global) -> Self {
        Slots {
            alloc,
            clauses: Slab::new(alloc),
            end: 0,
        }
    }

    #[tactic(auto, using(crate::proofs::SlotLemmas::slot_facts))]
    fn insert(&mut self, lits: &[Lit]) -> Result<usize, OutOfMemory> {
        // The slab gives out no key past the next one, which its contract leaves open.
        let key = self.clauses.vacant_key();
        if key >= MOST || key > self.end {
            return Err(OutOfMemory);
        }
        let clause = SmallVec::from_slice(self.alloc, lits)?;
        grow(&mut self.clauses)?;
        let slot = self.clauses.insert_reserved(clause);
        self.end = self.end.max(slot + 1);
        Ok(slot)
    }

    #[tactic(auto, using(crate::proofs::SlotLemmas::slot_facts))]
    fn remove(&mut self, slot: usize) {
        self.clauses.remove(slot);
    }

    #[tactic(auto, using(crate::proofs::SlotLemmas::slot_facts))]
    fn clause(&self, slot: usize) -> &[Lit] {
        match self.clauses.get(slot) {
            Some(clause) => clause.as_slice(),
            None => unreachable!(),
        }
    }

    #[tactic(auto, using(crate::proofs::SlotLemmas::slot_facts))]
    fn at(&self, number: usize) -> Option<&[Lit]> {
        match self.clauses.get(number) {
            Some(clause) => Some(clause.as_slice()),
            None => None,
        }
    }

    #[tactic(auto, using(crate::proofs::SlotLemmas::slot_facts))]
    fn end(&self) -> usize {
        self.end
    }

    #[tactic(auto, using(crate::proofs::SlotLemmas::slot_facts))]
    fn recall_invariant(&self) {
        let _end = self.end;
    }
}
