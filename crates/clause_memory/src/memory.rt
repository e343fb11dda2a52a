//! What a memory of clauses is.
//!
//! `Blocks` keeps clauses in one array, so that a look at one is one look at memory, and can put a
//! clause's literals in another order without reading them: that is for watched literals. `Slots`
//! are the plain choice for all others.

ghost use Rattle.std.specs.Prelude.{◌≡◌, ℕ, ◌+◌, ◌<◌, ◌≤◌, length, option_map, Some, None, IsSome};
ghost use Rattle.std.specs.Prelude.{IfOk, OnErr};
ghost use Rattle.std.specs.FinMap as maps;
ghost use Rattle.clause_memory.specs.Memory.{MemoryState, literals_in, slots_for};

use cnf_base::{Lit, OutOfMemory};
use std::alloc::Global;

/// The live clauses of a proof checker, each in a slot that the memory picks.
pub trait Memory: Sized {
    /// The live clauses by their slots, how many slots there are, and how many literals are kept.
    ghost seen: { Self → MemoryState };

    /// No clauses. It takes no memory.
    fn new(alloc: Global) -> Self
        ensures live { (seen result).live ≡ maps.empty }
        ensures stored { (seen result).stored ≡ 0 }
        ensures slots { (seen result).slots ≡ 0 };

    /// Puts a clause into a slot that is free. No other clause is moved.
    ///
    /// # Errors
    ///
    /// Where memory runs out, and then the memory is as it was.
    fn insert(&mut self, lits: &[Lit]) -> Result<usize, OutOfMemory>
        ensures free { IfOk result (λ slot. maps.get (seen self.old).live slot ≡ None) }
        ensures live { IfOk result (λ slot.
            (seen self.new).live ≡ maps.insert (seen self.old).live slot lits.now) }
        ensures low { IfOk result (λ slot. slot < 4294967295) }
        ensures few { maps.len (seen self.new).live ≤ 4294967295 }
        ensures live_alone { (seen self.new).stored ≡ literals_in (seen self.new).live }
        ensures err { OnErr result (seen self.new ≡ seen self.old) }
        ensures few_slots { (seen self.new).slots ≤
            (seen self.old).slots + slots_for (length lits.now) };

    /// Removes the clause in the slot. It takes no memory.
    fn remove(&mut self, slot: usize)
        requires { IsSome (maps.get (seen self.old).live slot) }
        ensures live { (seen self.new).live ≡ maps.remove (seen self.old).live slot }
        ensures live_alone { (seen self.new).stored ≡ literals_in (seen self.new).live }
        ensures slots { (seen self.new).slots ≡ (seen self.old).slots };

    /// The literals of the clause in the slot.
    fn clause(&self, slot: usize) -> &[Lit]
        requires { IsSome (maps.get (seen self.now).live slot) }
        ensures { Some result.now ≡ maps.get (seen self.now).live slot };

    /// The literals of the clause in the slot with this number, if there is one.
    fn at(&self, number: usize) -> Option<&[Lit]>
        ensures { option_map (λ c. c.now) result ≡ maps.get (seen self.now).live number };

    /// How many slots there are, free ones too. No slot from this number on has a clause.
    fn end(&self) -> usize
        ensures value { result ≡ (seen self.now).slots }
        ensures past { (s : ℕ) → IsSome (maps.get (seen self.now).live s) → s < result };

    /// What holds of each memory: it keeps no literals but those of the live clauses, and slots
    /// have four bytes.
    fn recall_invariant(&self)
        ensures live_alone { (seen self.now).stored ≡ literals_in (seen self.now).live }
        ensures few { maps.len (seen self.now).live ≤ 4294967295 }
        ensures low { (s : ℕ) → IsSome (maps.get (seen self.now).live s) → s < 4294967295 };
}
