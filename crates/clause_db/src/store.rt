//! The live clauses of a proof checker, each in its slot.
//!
//! A clause is stored once, without repeated literals. So its length is its size, and the sum of
//! the lengths is what the peak is made of. The order of its literals is left open, so that a
//! propagation may put its watched literals first.
//!
//! What is kept (`stored`) is counted over the fields, not over the clauses: that it is the sum of
//! the live sizes then has to be proved, and a clause that is only marked as deleted breaks it.

mod counts;
mod kept;
mod mark;
mod marks;
mod search;
mod taken;

ghost use Rattle.std.specs.Prelude.{◌≡◌, ◌≢◌, ℕ, ◌+◌, ◌<◌, ◌≤◌, [], ◌∷◌, ◌^◌, min};
ghost use Rattle.std.specs.Prelude.{Some, None, option_map, length};
ghost use Rattle.std.specs.Prelude.{IsTrue, IsSome, IfSome, IfNone, IfOk, OnOk, OnErr};
ghost use Rattle.std.specs.List.{swap};
ghost use Rattle.std.specs.List.Sorted.{IsStrictlyIncreasing};
ghost use Rattle.std.specs.Ordering.{nat_cmp};
ghost use Rattle.std.specs.FinMap as maps;
ghost use Rattle.std.specs.FinMap.{FinMap};
ghost use Rattle.cnf_base.specs.Literals.{Clause, has, same_clause, size};
ghost use Rattle.clause_memory.specs.Blocks.{CanRewatch, IsRewatched};
ghost use Rattle.clause_db.specs.Store.{literals_in, copies_with, is_tautology, no_clauses};
ghost use Rattle.clause_db.specs.Store.{IsTouchedAt, slots_for};
ghost use Rattle.clause_db.specs.Code.Counts.{AreCounted};
ghost use Rattle.clause_db.specs.Code.Kept.{AreKept};

use crate::Slot;
use crate::store::counts::{count_in, count_out, count_with, keep};
use crate::store::kept::{find_slots, forget, note};
use crate::store::marks::{
    all_known, few_have_complements, have_complements, mark_all, unmark_all,
};
use crate::store::search::{find_marked, find_unit};
use crate::store::taken::{FEW, take_in};
use clause_index::{Index, Indexing, NoIndex};
use clause_memory::{Blocks, Memory};
use cnf_base::{Lit, OutOfMemory};
use occurrences::Occurrences;
use std::alloc::Global;
use std::marker::Model;
use tables::ByKey;

/// The live clauses of a proof checker, each in a slot that the store picks.
///
/// Contracts see it as a finite map from the numbers of the slots to the clauses, how many slots
/// there are, and how many literals it keeps. A clause is the set of its literals: the store keeps
/// each literal once, in an order that it picks. They stand in a memory of either kind. One with
/// [`NoIndex`](crate::NoIndex) finds no clause by its literals, and takes less memory.
#[derive(Drop)]
pub struct Store<M: Memory = Blocks, I: Indexing = Index> {
    alloc: Global,
    memory: M,
    index: I,
    /// By literal whether a call has marked it.
    marks: ByKey<bool>,
    /// By literal how many clauses have it, where this is counted.
    counts: Option<ByKey<u32>>,
    sum: u128,
    /// By literal the slots of the clauses that have it, from when they are first asked for.
    occurrences: Option<Occurrences>,
}

impl<M: Memory, I: Indexing> Model for Store<M, I> {
    ghost use Rattle.clause_memory.specs.Code.Slots.{slots_code};
    ghost use Rattle.clause_memory.specs.Memory.{MemoryState};
    ghost use Rattle.clause_db.specs.Code.Counts.{AreCounted};
    ghost use Rattle.clause_db.specs.Code.Fields.{IsStore};
    ghost use Rattle.clause_db.specs.Code.Kept.{AreKept};

    ghost Value = { MemoryState };

    ghost coded = { slots_code };

    // Each field has to be named here. Of them the memory alone keeps literals of clauses: the
    // index and the occurrences have slots, and the marks and the counts are tables by literal.
    ghost view = { λ record {
      alloc = _;
      memory = memory;
      index = _;
      marks = _;
      counts = _;
      sum = _;
      occurrences = _;
    }. M.seen memory };

    ghost invariant = { λ s.
        IsStore (M.seen s.memory).live (M.seen s.memory).stored s.marks s.sum
        × I.indexes s.index (M.seen s.memory).live × AreKept s.occurrences (M.seen s.memory).live
        × AreCounted s.counts (M.seen s.memory).live };
}

/// Counts the literals of a clause, and adds its slot to what finds it again.
fn list_up<I: Indexing>(
    index: &mut I,
    kept: &mut Option<Occurrences>,
    counts: &mut Option<ByKey<u32>>,
    slot: usize,
    lits: &[Lit],
) -> Result<(), OutOfMemory>
    requires different { size lits.now ≡ length lits.now }
    requires low { slot < 4294967295 }
    requires free { (live : FinMap nat_cmp Clause) × AreKept kept.old live
        × AreCounted counts.old live × (maps.get live slot ≡ None)
        × (maps.len live < 4294967295) }
    ensures index { OnOk result ((live : FinMap nat_cmp Clause) →
        I.indexes index.old live → maps.get live slot ≡ None →
        I.indexes index.new (maps.insert live slot lits.now)) }
    ensures kept { OnOk result ((live : FinMap nat_cmp Clause) → AreKept kept.old live →
        maps.get live slot ≡ None → AreKept kept.new (maps.insert live slot lits.now)) }
    ensures counts { OnOk result ((live : FinMap nat_cmp Clause) → AreCounted counts.old live →
        maps.get live slot ≡ None → AreCounted counts.new (maps.insert live slot lits.now)) }
    ensures same_index { OnErr result ((live : FinMap nat_cmp Clause) →
        I.indexes index.old live → I.indexes index.new live) }
    ensures same_kept { OnErr result ((live : FinMap nat_cmp Clause) → AreKept kept.old live →
        maps.get live slot ≡ None → AreKept kept.new live) }
    ensures same_counts { OnErr result ((live : FinMap nat_cmp Clause) →
        AreCounted counts.old live → maps.get live slot ≡ None → AreCounted counts.new live) }
{
    count_in(counts, lits)?;
    if let Err(refused) = note(kept, slot, lits) {
        count_out(counts, lits);
        return Err(refused);
    }
    match index.add(slot, lits) {
        Ok(()) => Ok(()),
        Err(refused) => {
            forget(kept, slot);
            count_out(counts, lits);
            Err(refused)
        }
    }
}

impl<M: Memory, I: Indexing> Store<M, I> {
    #[tactic(auto, using(crate::proofs::StoreLemmas::Fields::sound_empty))]
    fn empty(alloc: Global, seed: u64) -> Self
        ensures { result ≡ no_clauses }
    {
        Store {
            alloc,
            memory: M::new(alloc),
            index: I::new(alloc, seed),
            marks: ByKey::new(alloc),
            counts: None,
            sum: 0,
            occurrences: None,
        }
    }

    /// Stores a clause in a slot that is free, and fails only where memory is refused. A repeated
    /// literal is kept once. Where it fails late, slots that it made stay.
    #[tactic(auto, using(crate::proofs::StoreLemmas::Fields::insert_steps))]
    pub fn insert(&mut self, lits: &[Lit]) -> Result<Slot, OutOfMemory>
        ensures free { IfOk result (λ slot. maps.get self.old.live slot ≡ None) }
        ensures stored { IfOk result (λ slot. (c : Clause) ×
            (maps.get self.new.live slot ≡ Some c) × IsTrue (same_clause c lits.now)) }
        ensures others { IfOk result (λ slot. (s : ℕ) → s ≢ slot →
            maps.get self.new.live s ≡ maps.get self.old.live s) }
        ensures live_alone { self.new.stored ≡ literals_in self.new.live }
        ensures err_live { OnErr result (self.new.live ≡ self.old.live) }
        ensures err_stored { OnErr result (self.new.stored ≡ self.old.stored) }
        ensures few_slots { self.new.slots ≤ self.old.slots + slots_for (size lits.now) }
    {
        let slot = take_in(self.alloc, &mut self.memory, &mut self.marks, lits)?;
        let kept = self.memory.clause(slot);
        match list_up(
            &mut self.index,
            &mut self.occurrences,
            &mut self.counts,
            slot,
            kept,
        ) {
            Ok(()) => {
                self.sum += kept.len() as u128;
                Ok(Slot::at(slot))
            }
            Err(refused) => {
                self.memory.remove(slot);
                Err(refused)
            }
        }
    }

    /// Takes the clause out of its slot. Other copies of it stay.
    pub fn remove(&mut self, slot: Slot)
        requires { IsSome (maps.get self.old.live slot) }
        ensures live { self.new.live ≡ maps.remove self.old.live slot }
        ensures live_alone { self.new.stored ≡ literals_in self.new.live }
        ensures slots { self.new.slots ≡ self.old.slots }
    {
        let number = slot.number();
        let lits = self.memory.clause(number);
        count_out(&mut self.counts, lits);
        self.sum -= lits.len() as u128;
        self.index.remove(number, lits);
        forget(&mut self.occurrences, number);
        self.memory.remove(number);
    }

    /// The literals of the clause in the slot, in the order of the store.
    pub fn clause(&self, slot: Slot) -> &[Lit]
        requires { IsSome (maps.get self.now.live slot) }
        ensures clause { Some result.now ≡ maps.get self.now.live slot }
        ensures different { length result.now ≡ size result.now }
    {
        self.memory.clause(slot.number())
    }

    /// Whether the clause in the slot has a literal and its complement. It takes no memory.
    pub fn is_tautology(&mut self, slot: Slot) -> bool
        requires { IsSome (maps.get self.old.live slot) }
        ensures yes { (c : Clause) → maps.get self.old.live slot ≡ Some c →
            result ≡ is_tautology c }
        ensures same { self.new ≡ self.old }
    {
        let lits = self.memory.clause(slot.number());
        if lits.len() <= FEW {
            return few_have_complements(lits);
        }
        have_complements(&mut self.marks, lits)
    }

    /// What holds of each store: no clause repeats a literal, and no literals are kept but those of
    /// the live clauses.
    pub fn recall_invariant(&self)
        ensures different { (s : ℕ) (c : Clause) → maps.get self.now.live s ≡ Some c →
            size c ≡ length c }
        ensures live_alone { self.now.stored ≡ literals_in self.now.live }
    {
        let _sum = self.sum;
    }

    /// How many slots there are, free ones too. No slot from this number on has a clause.
    pub fn end(&self) -> usize
        ensures value { result ≡ self.now.slots }
        ensures past { (s : ℕ) → IsSome (maps.get self.now.live s) → s < result }
    {
        self.memory.end()
    }

    /// The clause in the slot with this number, if there is one.
    pub fn at(&self, number: usize) -> Option<&[Lit]>
        ensures { option_map (λ c. c.now) result ≡ maps.get self.now.live number }
    {
        self.memory.at(number)
    }

    /// The sum of the lengths of the lists of literals that it keeps, which is that of the sizes of
    /// the clauses; `2^64 - 1` where it is greater.
    pub fn literals(&self) -> u64
        ensures value { result ≡ min self.now.stored 18446744073709551615 }
        ensures live_alone { self.now.stored ≡ literals_in self.now.live }
    {
        self.sum.min(18446744073709551615) as u64
    }

    /// Gathers the slots of the clauses that the literals touch, in ascending order: that have the
    /// complement of one of them. `into` is emptied first.
    ///
    /// The first call goes over all clauses, and notes where each literal occurs. From then on this
    /// is kept, and a call takes as long as the lists of these literals are, and as sorting what is
    /// found.
    ///
    /// # Errors
    ///
    /// Where memory runs out.
    pub fn slots_touched(&mut self, lits: &[Lit], into: &mut Vec<u32>) -> Result<(), OutOfMemory>
        ensures ascending { OnOk result (IsStrictlyIncreasing into.new.items) }
        ensures each { OnOk result ((s : ℕ) → IsTrue (has into.new.items s) →
            IsTouchedAt self.old.live lits.now s) }
        ensures all { OnOk result ((s : ℕ) → IsTouchedAt self.old.live lits.now s →
            IsTrue (has into.new.items s)) }
        ensures same { self.new ≡ self.old }
    {
        find_slots(&mut self.occurrences, self.alloc, &self.memory, lits, into)
    }

    /// Counts from now on how many clauses have each literal, so that `count_with` takes constant
    /// time. The first call goes over all clauses.
    ///
    /// # Errors
    ///
    /// Where memory runs out.
    pub fn keep_counts(&mut self) -> Result<(), OutOfMemory>
        ensures { self.new ≡ self.old }
    {
        keep(&mut self.counts, self.alloc, &self.memory)
    }

    /// How many of the clauses have the literal. It takes constant time where these are counted, and
    /// else goes over all clauses.
    pub fn count_with(&self, l: Lit) -> u64
        ensures { result ≡ copies_with self.now.live l }
    {
        count_with(&self.counts, &self.memory, l)
    }
}

impl<M: Memory> Store<M, NoIndex> {
    /// No clauses, and none will be searched for by its literals.
    pub fn without_index(alloc: Global) -> Result<Self, OutOfMemory>
        ensures { IfOk result (λ s. s ≡ no_clauses) }
    {
        Ok(Store::empty(alloc, 0))
    }
}

impl<M: Memory> Store<M, Index> {
    /// No clauses. Whoever chooses them can choose some with one hash, which makes the searches
    /// long: see [`Store::seeded`].
    pub fn new(alloc: Global) -> Result<Self, OutOfMemory>
        ensures { IfOk result (λ s. s ≡ no_clauses) }
    {
        Store::seeded(alloc, 0)
    }

    /// No clauses. They will be hashed by the seed, a number that whoever chooses them shouldn't
    /// know. No answer depends on it.
    pub fn seeded(alloc: Global, seed: u64) -> Result<Self, OutOfMemory>
        ensures { IfOk result (λ s. s ≡ no_clauses) }
    {
        Ok(Store::empty(alloc, seed))
    }

    /// A slot with the same clause as a set, if there is one. It takes no memory.
    #[tactic(auto, using(crate::proofs::StoreLemmas::Search::find_steps))]
    pub fn find(&mut self, lits: &[Lit]) -> Option<Slot>
        ensures found { IfSome result (λ slot. (c : Clause) ×
            (maps.get self.old.live slot ≡ Some c) × IsTrue (same_clause c lits.now)) }
        ensures none { IfNone result
            ((s : ℕ) (c : Clause) → maps.get self.old.live s ≡ Some c →
            IsTrue (same_clause c lits.now) → ⊥) }
        ensures same { self.new ≡ self.old }
    {
        if !all_known(&self.marks, lits) {
            return None;
        }
        let digest = mark_all(&mut self.marks, lits, self.index.seed());
        let found = find_marked(&self.memory, &self.index, &self.marks, &digest);
        unmark_all(&mut self.marks, lits);
        match found {
            Some(slot) => Some(Slot::at(slot as usize)),
            None => None,
        }
    }

    /// The number of a slot other than this one that has a clause of the literal alone, if there
    /// is one. It takes no memory.
    pub fn other_unit(&self, l: Lit, slot: Slot) -> Option<u32>
        ensures other { IfSome result (λ s. s ≢ slot) }
        ensures unit { IfSome result (λ s. maps.get self.now.live s ≡ Some (l ∷ [])) }
        ensures none { IfNone result ((s : ℕ) → s ≢ slot →
            maps.get self.now.live s ≢ Some (l ∷ [])) }
    {
        find_unit(&self.memory, &self.index, l, slot.number())
    }
}

impl Store {
    /// Puts two literals of the clause in the slot in each other's place. It takes no memory.
    pub fn swap(&mut self, slot: Slot, a: usize, b: usize)
        requires { (c : Clause) × (maps.get self.old.live slot ≡ Some c)
            × (a < length c) × (b < length c) }
        ensures live { (c : Clause) → maps.get self.old.live slot ≡ Some c →
            self.new.live ≡ maps.insert self.old.live slot (swap c a b) }
        ensures live_alone { self.new.stored ≡ literals_in self.new.live }
        ensures slots { self.new.slots ≡ self.old.slots }
    {
        self.memory.swap(slot.number(), a, b);
    }

    /// Puts the literal `next` of the clause in the slot among its first two, in the place of `l`,
    /// which goes to where `next` stood. The other one of the two, `other`, comes first. Nothing is
    /// read of the clause, and it takes no memory.
    #[inline(always)]
    pub fn rewatch(&mut self, slot: Slot, other: Lit, next: Lit, to: usize, l: Lit)
        requires { CanRewatch self.old.live slot other next to l }
        ensures live { IsRewatched self.old.live self.new.live slot other to l }
        ensures live_alone { self.new.stored ≡ literals_in self.new.live }
        ensures slots { self.new.slots ≡ self.old.slots }
    {
        self.memory.rewatch(slot.number(), other, next, to, l);
    }
}
