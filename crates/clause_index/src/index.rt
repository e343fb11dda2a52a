//! The index of a store, which finds the slots of a clause by the clause's hash.
//!
//! LRAT names clauses by identifiers and never searches for one, so its store has none (`NoIndex`):
//! a third less memory for clauses of three literals.
//!
//! A slot's link has its hash, so that no clause is hashed again where it is deleted, or where
//! there are to be more chains. Of copies the one that was put last into its chain is found first,
//! so that they are deleted one after the other without a walk.

ghost use Rattle.std.specs.Prelude.{◌≡◌, ◌≢◌, ℕ, ◌<◌, ◌≤◌, length, Some, None, ⊤, OnOk, OnErr};
ghost use Rattle.std.specs.Prelude.{IfSome, IfNone, Option, true, false};
ghost use Rattle.std.specs.Ordering.{nat_cmp};
ghost use Rattle.std.specs.FinMap as maps;
ghost use Rattle.std.specs.FinMap.{FinMap};
ghost use Rattle.cnf_base.specs.Literals.{Clause, size};
ghost use Rattle.clause_index.specs.Hashes.{hash};

use crate::chains::{before, home_of, put_in};
use crate::hash::hash_of;
use crate::link::{Link, NONE};
use crate::sought::Sought;
use cnf_base::{Lit, OutOfMemory};
use std::alloc::Global;

/// What a store keeps to find the slots of a clause again.
pub trait Indexing: Sized {
    /// It indexes these clauses, each in its slot.
    ghost indexes: { Self → FinMap nat_cmp Clause → Type 0 };

    /// It indexes no clause, and hashes by the seed, where it hashes. It takes no memory.
    fn new(alloc: Global, seed: u64) -> Self
        ensures { indexes result maps.empty };

    /// Adds the slot of a clause.
    ///
    /// # Errors
    ///
    /// Where memory runs out. It indexes what it did then.
    fn add(&mut self, slot: usize, lits: &[Lit]) -> Result<(), OutOfMemory>
        requires different { size lits.now ≡ length lits.now }
        requires low { slot < 4294967295 }
        ensures ok { OnOk result ((live : FinMap nat_cmp Clause) →
            indexes self.old live → maps.get live slot ≡ None →
            indexes self.new (maps.insert live slot lits.now)) }
        ensures err { OnErr result ((live : FinMap nat_cmp Clause) →
            indexes self.old live → indexes self.new live) };

    /// Takes the slot of the clause out. It takes no memory.
    fn remove(&mut self, slot: usize, lits: &[Lit])
        requires different { size lits.now ≡ length lits.now }
        requires there { (live : FinMap nat_cmp Clause) × indexes self.old live
            × (maps.get live slot ≡ Some lits.now) }
        ensures { (live : FinMap nat_cmp Clause) → indexes self.old live →
            maps.get live slot ≡ Some lits.now → indexes self.new (maps.remove live slot) };
}

/// No index, for clauses that are never searched for. It takes no memory.
#[derive(Clone, Copy)]
pub struct NoIndex {}

impl Indexing for NoIndex {
    ghost indexes = { λ _ _. ⊤ };

    fn new(_alloc: Global, _seed: u64) -> Self {
        NoIndex {}
    }

    fn add(&mut self, _slot: usize, _lits: &[Lit]) -> Result<(), OutOfMemory> {
        Ok(())
    }

    fn remove(&mut self, _slot: usize, _lits: &[Lit]) {}
}

/// The slots of the clauses by their hashes, in chains.
///
/// A search goes over the slots of a chain, and compares the clauses that have the hash: some may
/// be others with the same one.
#[derive(Drop)]
pub struct Index {
    alloc: Global,
    /// What clauses are hashed by. Who doesn't know it can't choose clauses with one hash.
    seed: u64,
    /// The first slot of each chain.
    heads: Vec<u32>,
    /// By slot what comes after it.
    links: Vec<Link>,
    /// The slots from this one on wait: they are in no chain yet.
    placed: usize,
    /// How many slots may wait.
    waiting: usize,
    /// How many clauses there are.
    count: usize,
}

/// How many chains there are at first.
const LEAST: usize = 1024;

/// How many slots a chain has in the mean, at most.
const LOAD: usize = 2;

/// How many slots may wait until a clause is deleted. They are put into chains one after the other,
/// so that a processor looks for several heads at once.
const WAITING: usize = 256;

/// How many chains there are to be where so many have too many slots.
fn next_len(len: usize) -> usize
    requires { len < 9223372036854775808 }
    ensures { 0 < result }
{
    if len == 0 { LEAST } else { len * 2 }
}

impl Index {
    ghost use Rattle.clause_index.specs.Index.{seed_of};
    ghost use Rattle.clause_index.specs.Code.Chains.{IsIndexed, Indexes};

    /// What clauses are hashed by.
    #[inline(always)]
    pub fn seed(&self) -> u64
        ensures { result ≡ seed_of self.now }
    {
        self.seed
    }

    /// The slot of a clause with this hash that is sought, if there is one. It takes no memory.
    #[inline(always)]
    #[tactic(auto, using(crate::proofs::IndexLemmas::Found::some_heads))]
    pub fn find<T: Sought>(&self, key: u32, sought: &T) -> Option<u32>
        requires { (live : FinMap nat_cmp Clause) × ⟦<Index as Indexing>⟧.indexes self.now live }
        ensures found { IfSome result (λ s. T.is sought.now s ≡ true) }
        ensures none { IfNone result ((live : FinMap nat_cmp Clause) (s : ℕ) (c : Clause) →
            ⟦<Index as Indexing>⟧.indexes self.now live → maps.get live s ≡ Some c →
            hash (seed_of self.now) c ≡ key →
            T.is sought.now s ≡ false) }
    {
        if self.heads.is_empty() {
            return None;
        }
        match self.find_waiting(key, sought) {
            Some(slot) => Some(slot),
            None => self.find_placed(key, sought),
        }
    }

    /// A slot with this hash that waits and is sought.
    #[inline(always)]
    fn find_waiting<T: Sought>(&self, key: u32, sought: &T) -> Option<u32>
        ensures found { IfSome result (λ s. T.is sought.now s ≡ true) }
        ensures none { IfNone result ((live : FinMap nat_cmp Clause) (s : ℕ) (c : Clause) →
            Indexes self.now live → self.now.placed ≤ s → maps.get live s ≡ Some c →
            hash (seed_of self.now) c ≡ key →
            T.is sought.now s ≡ false) }
    {
        for slot in self.placed..self.links.len().min(NONE as usize) {
            if self.links[slot].hash == key && sought.is_at(slot as u32) {
                return Some(slot as u32);
            }
        }
        None
    }

    /// A slot with this hash that is in a chain and is sought.
    #[inline(always)]
    fn find_placed<T: Sought>(&self, key: u32, sought: &T) -> Option<u32>
        requires some { 0 < length self.now.heads.items }
        requires indexes { (live : FinMap nat_cmp Clause) × Indexes self.now live }
        ensures found { IfSome result (λ s. T.is sought.now s ≡ true) }
        ensures none { IfNone result ((live : FinMap nat_cmp Clause) (s : ℕ) (c : Clause) →
            Indexes self.now live → s < self.now.placed → maps.get live s ≡ Some c →
            hash (seed_of self.now) c ≡ key →
            T.is sought.now s ≡ false) }
    {
        let mut at = self.heads[home_of(key, self.heads.len())];
        for _step in 0..self.links.len() {
            if at == NONE {
                return None;
            }
            let link = self.links[at as usize];
            if link.hash == key && sought.is_at(at) {
                return Some(at);
            }
            at = link.next;
        }
        None
    }

    /// Puts the slots that wait into chains. It takes no memory.
    fn place_all(&mut self)
        requires some { 0 < length self.old.heads.items }
        ensures same { (live : FinMap nat_cmp Clause) →
            Indexes self.old live → Indexes self.new live }
        ensures heads { length self.new.heads.items ≡ length self.old.heads.items }
        ensures links { length self.new.links.items ≡ length self.old.links.items }
        ensures all { length self.new.links.items ≤ self.new.placed }
        ensures seed { self.new.seed ≡ self.old.seed }
    {
        for slot in self.placed..self.links.len() {
            let link = self.links[slot];
            if slot < NONE as usize && link.next as usize != slot {
                put_in(&mut self.heads, &mut self.links, slot as u32, link.hash);
            }
            self.placed = slot + 1;
        }
    }

    /// Makes more chains, and puts the slots into them anew. Where memory is refused, nothing
    /// changes.
    #[cold]
    #[inline(never)]
    fn grow(&mut self) -> Result<(), OutOfMemory>
        ensures same { (live : FinMap nat_cmp Clause) →
            Indexes self.old live → Indexes self.new live }
        ensures some { OnOk result (0 < length self.new.heads.items) }
        ensures seed { self.new.seed ≡ self.old.seed }
    {
        self.heads = vec![in self.alloc; NONE; next_len(self.heads.len())]?;
        self.placed = 0;
        self.place_all();
        Ok(())
    }

    /// Makes more chains where these have too many slots.
    #[inline(always)]
    fn make_room(&mut self) -> Result<(), OutOfMemory>
        ensures same { (live : FinMap nat_cmp Clause) →
            Indexes self.old live → Indexes self.new live }
        ensures some { OnOk result (0 < length self.new.heads.items) }
        ensures seed { self.new.seed ≡ self.old.seed }
    {
        if self.heads.is_empty() || self.count / LOAD >= self.heads.len() {
            return self.grow();
        }
        Ok(())
    }

    /// Gives each slot up to this one a link.
    #[inline(always)]
    fn reach(&mut self, slot: usize) -> Result<(), OutOfMemory>
        requires low { slot < 4294967295 }
        ensures same { (live : FinMap nat_cmp Clause) →
            Indexes self.old live → Indexes self.new live }
        ensures inside { OnOk result (slot < length self.new.links.items) }
        ensures heads { self.new.heads ≡ self.old.heads }
        ensures placed { self.new.placed ≡ self.old.placed }
        ensures seed { self.new.seed ≡ self.old.seed }
    {
        for next in self.links.len()..slot + 1 {
            self.links.push(Link {
                hash: 0,
                next: next as u32,
            })?;
        }
        Ok(())
    }

    /// Puts a slot into the chain of its hash, or lets it wait.
    #[inline(always)]
    fn put(&mut self, slot: usize, hash: u32)
        requires some { 0 < length self.old.heads.items }
        requires inside { slot < length self.old.links.items }
        requires low { slot < 4294967295 }
        ensures indexed { (held now : ℕ → Option ℕ) → IsIndexed self.old held →
            held slot ≡ None → now slot ≡ Some hash → ((s : ℕ) → s ≢ slot → now s ≡ held s) →
            IsIndexed self.new now }
        ensures heads { length self.new.heads.items ≡ length self.old.heads.items }
        ensures seed { self.new.seed ≡ self.old.seed }
    {
        if slot < self.placed {
            put_in(&mut self.heads, &mut self.links, slot as u32, hash);
        } else {
            self.links[slot] = Link { hash, next: NONE };
        }
    }
}

impl Indexing for Index {
    ghost use Rattle.clause_index.specs.Code.Chains.{Indexes};

    ghost indexes = { Indexes };

    fn new(alloc: Global, seed: u64) -> Self {
        Index {
            alloc,
            seed,
            heads: Vec::new(alloc),
            links: Vec::new(alloc),
            placed: 0,
            waiting: WAITING,
            count: 0,
        }
    }

    fn add(&mut self, slot: usize, lits: &[Lit]) -> Result<(), OutOfMemory> {
        self.make_room()?;
        self.reach(slot)?;
        self.put(slot, hash_of(self.seed, lits));
        self.count = self.count.saturating_add(1);
        if self.links.len().saturating_sub(self.placed) > self.waiting {
            self.place_all();
        }
        Ok(())
    }

    #[tactic(auto, using(crate::proofs::IndexLemmas::Found::inside_facts))]
    fn remove(&mut self, slot: usize, _lits: &[Lit]) {
        self.waiting = 0;
        self.place_all();
        let link = self.links[slot];
        let home = home_of(link.hash, self.heads.len());
        match before(&self.links, self.heads[home], slot as u32) {
            Some(other) => self.links[other as usize].next = link.next,
            None => self.heads[home] = link.next,
        }
        self.links[slot].next = slot as u32;
        self.count = self.count.saturating_sub(1);
    }
}
