//! A memory of clauses, in one array of words.

ghost use Rattle.std.specs.Prelude.{◌≡◌, ◌≢◌, ℕ, ◌+◌, ◌*◌, ◌<◌, ◌≤◌, length};
ghost use Rattle.std.specs.Prelude.{Some, None, IsSome, IfOk, OnErr};
ghost use Rattle.std.specs.FinMap as maps;
ghost use Rattle.std.specs.List.{swap};
ghost use Rattle.cnf_base.specs.Literals.{Clause};
ghost use Rattle.clause_memory.specs.Blocks.{AddsFewBlocks, CanRewatch, IsRewatched};
ghost use Rattle.clause_memory.specs.Blocks.{memory_of, cells_for, cells_in};
ghost use Rattle.clause_memory.specs.Memory.{literals_in};

use crate::Memory;
use crate::kind::{Kind, kind_of};
use crate::reuse::take_out;
use crate::room::place;
use crate::words::{exchange, literals, rewrite};
use cnf_base::{Lit, OutOfMemory};
use std::alloc::Global;
use std::marker::Model;
use tables::ByKey;

/// The live clauses of a proof checker, each in a slot that the memory picks: the literals of a
/// clause behind its header, in one array of words. A slot says where the block of its clause
/// begins, so a look at a clause is one look at memory, and a clause stays where it is.
///
/// Contracts see it as finite maps from slots to clauses and to the sizes of blocks, and how many
/// words hold a literal.
///
/// - A block has as many cells of four words as its clause needs. The slot is the number of the
///   first one, so slots are as dense as short clauses.
/// - The block of a clause that was removed is overwritten and waits, in a list for its number of
///   cells, for the next clause that needs as many. A further block is made only where none waits.
#[derive(Drop)]
pub struct Blocks {
    /// What each cell is, for look-ups of slots that may have no clause.
    kinds: Vec<Kind>,
    words: Vec<Lit>,
    /// By number of cells the link to the first free block.
    heads: ByKey<u32>,
}

impl Model for Blocks {
    ghost use Rattle.tables.specs.ByKey.{at};
    ghost use Rattle.clause_memory.specs.Blocks.{BlocksState};
    ghost use Rattle.clause_memory.specs.Code.Fields.{IsMemory, blocks_code, seen_as};

    ghost Value = { BlocksState };

    ghost coded = { blocks_code };

    // Each field has to be named here. Of them the words alone hold literals: the others say what
    // the cells are, and where free blocks begin.
    ghost view = { λ record { kinds = kinds; words = words; heads = _ }.
        seen_as kinds.items words.items };

    ghost invariant = { λ m. IsMemory m.kinds.items m.words.items (at m.heads) };
}

impl Blocks {
    /// How many words the array has: four for each cell of a block.
    #[tactic(auto, using(crate::proofs::BlockLemmas::cells_are))]
    pub fn words(&self) -> usize
        ensures { result ≡ 4 * cells_in self.now.blocks }
    {
        self.words.len()
    }

    /// Puts two literals of the clause in the slot in each other's place. It takes no memory.
    #[inline(always)]
    pub fn swap(&mut self, slot: usize, a: usize, b: usize)
        requires { (c : Clause) × (maps.get self.old.live slot ≡ Some c)
            × (a < length c) × (b < length c) }
        ensures live { (c : Clause) → maps.get self.old.live slot ≡ Some c →
            self.new.live ≡ maps.insert self.old.live slot (swap c a b) }
        ensures blocks { self.new.blocks ≡ self.old.blocks }
        ensures live_alone { self.new.stored ≡ literals_in self.new.live }
    {
        exchange(&mut self.words, slot, a, b);
    }

    /// Puts the literal `next` of the clause in the slot among its first two, in the place of `l`,
    /// which goes to where `next` stood. The other one of the two, `other`, comes first. Nothing is
    /// read, and it takes no memory.
    #[inline(always)]
    pub fn rewatch(&mut self, slot: usize, other: Lit, next: Lit, to: usize, l: Lit)
        requires { CanRewatch self.old.live slot other next to l }
        ensures live { IsRewatched self.old.live self.new.live slot other to l }
        ensures blocks { self.new.blocks ≡ self.old.blocks }
        ensures live_alone { self.new.stored ≡ literals_in self.new.live }
    {
        rewrite(&mut self.words, slot, other, next, to, l);
    }
}

impl Memory for Blocks {
    ghost seen = { memory_of };

    #[tactic(auto, using(crate::proofs::MemoryLemmas::new_facts))]
    fn new(alloc: Global) -> Self
        ensures live { result.live ≡ maps.empty }
        ensures stored { result.stored ≡ 0 }
        ensures blocks { result.blocks ≡ maps.empty }
        ensures slots { cells_in result.blocks ≡ 0 }
    {
        Blocks {
            kinds: Vec::new(alloc),
            words: Vec::new(alloc),
            heads: ByKey::new(alloc),
        }
    }

    /// Puts a clause into a slot that is free. No other clause is moved. A further block is made
    /// only where each that has as many cells has a clause.
    ///
    /// # Errors
    ///
    /// Where memory runs out.
    #[tactic(auto, using(crate::proofs::CountLemmas::insert_facts))]
    fn insert(&mut self, lits: &[Lit]) -> Result<usize, OutOfMemory>
        ensures free { IfOk result (λ slot. maps.get self.old.live slot ≡ None) }
        ensures live { IfOk result (λ slot.
            self.new.live ≡ maps.insert self.old.live slot lits.now) }
        ensures low { IfOk result (λ slot. slot < 4294967295) }
        ensures few { maps.len self.new.live ≤ 4294967295 }
        ensures live_alone { self.new.stored ≡ literals_in self.new.live }
        ensures err { OnErr result (self.new ≡ self.old) }
        ensures block { IfOk result (λ slot.
            maps.get self.new.blocks slot ≡ Some (cells_for (length lits.now))) }
        ensures other_blocks { IfOk result (λ slot. (s : ℕ) → s ≢ slot →
            maps.get self.new.blocks s ≡ maps.get self.old.blocks s) }
        ensures none_was_free { IfOk result (λ slot. maps.get self.old.blocks slot ≡ None →
            (s : ℕ) → maps.get self.old.blocks s ≡ Some (cells_for (length lits.now)) →
            IsSome (maps.get self.old.live s)) }
        ensures few_blocks { AddsFewBlocks self.old.blocks self.new.blocks self.old.live
            (cells_for (length lits.now)) }
        ensures few_slots { cells_in self.new.blocks ≤
            cells_in self.old.blocks + cells_for (length lits.now) }
    {
        place(&mut self.kinds, &mut self.words, &mut self.heads, lits)
    }

    /// Removes the clause in the slot. Its block waits. It takes no memory.
    #[tactic(auto, using(crate::proofs::ClauseLemmas::seen_facts))]
    fn remove(&mut self, slot: usize)
        requires { IsSome (maps.get self.old.live slot) }
        ensures live { self.new.live ≡ maps.remove self.old.live slot }
        ensures live_alone { self.new.stored ≡ literals_in self.new.live }
        ensures blocks { self.new.blocks ≡ self.old.blocks }
    {
        take_out(&mut self.kinds, &mut self.words, &mut self.heads, slot);
    }

    #[inline(always)]
    #[tactic(auto, using(crate::proofs::ClauseLemmas::get_clause))]
    fn clause(&self, slot: usize) -> &[Lit] {
        literals(&self.words, slot)
    }

    #[tactic(auto, using(crate::proofs::ClauseLemmas::get_clause))]
    fn at(&self, number: usize) -> Option<&[Lit]> {
        match kind_of(&self.kinds, number) {
            Kind::Live => Some(literals(&self.words, number)),
            _ => None,
        }
    }

    #[tactic(auto, using(crate::proofs::ClauseLemmas::seen_facts))]
    fn end(&self) -> usize {
        self.kinds.len()
    }

    #[tactic(auto, using(crate::proofs::ClauseLemmas::seen_facts))]
    fn recall_invariant(&self) {
        let _len = self.kinds.len();
    }
}
