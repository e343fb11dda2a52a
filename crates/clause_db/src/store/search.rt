//! The search for a clause that is marked.
//!
//! The literals that are sought are marked in a table first, and clauses are compared by the marks.
//! So a search is linear in the clause, whatever is repeated, and takes no memory. `find` marks and
//! unmarks literals, and so takes `&mut self`. A copy of a unit clause is told by its one literal,
//! and needs no marks.

ghost use Rattle.std.specs.Prelude.{◌≡◌, ◌≢◌, ℕ, ◌==◌, ◌&&◌, ◌∷◌, [], not, false, true, Some};
ghost use Rattle.std.specs.Prelude.{IfSome, IfNone};
ghost use Rattle.std.specs.FinMap as maps;
ghost use Rattle.cnf_base.specs.Literals.{Clause};
ghost use Rattle.clause_index.specs.Hashes.{hash};
ghost use Rattle.clause_index.specs.Index.{seed_of};
ghost use Rattle.clause_db.specs.Code.LiteralMarks.{is_marked};
ghost use Rattle.clause_db.specs.Code.Matches.{is_match, is_match_in, is_unit_in};
ghost use Rattle.tables.specs.ByKey.{at};

use crate::store::marks::{Digest, all_marked};
use clause_index::{Index, Indexing, Sought, mixed, upper_half};
use clause_memory::Memory;
use cnf_base::Lit;
use tables::ByKey;

/// The slot of a clause of so many literals, each of them marked.
#[derive(Clone, Copy)]
struct Marked<'a, M: Memory> {
    memory: &'a M,
    marks: &'a ByKey<bool>,
    len: usize,
}

impl<M: Memory> Sought for Marked<'_, M> {
    ghost is = { λ it s. is_match_in (λ l. is_marked (at it.marks.now l)) it.len
        (maps.get (M.seen it.memory.now).live s) };

    fn is_at(&self, slot: u32) -> bool {
        match self.memory.at(slot as usize) {
            Some(lits) => lits.len() == self.len && all_marked(self.marks, lits),
            None => false,
        }
    }
}

/// The slot of a unit clause of this literal, other than this one.
#[derive(Clone, Copy)]
struct OtherUnit<'a, M: Memory> {
    memory: &'a M,
    literal: Lit,
    slot: usize,
}

impl<M: Memory> Sought for OtherUnit<'_, M> {
    ghost is = { λ it s. not (s == it.slot)
        && is_unit_in it.literal (maps.get (M.seen it.memory.now).live s) };

    fn is_at(&self, slot: u32) -> bool {
        if slot as usize == self.slot {
            return false;
        }
        match self.memory.at(slot as usize) {
            Some([only]) => *only == self.literal,
            _ => false,
        }
    }
}

/// A slot with the hash of the digest that has a clause of so many literals, each of them marked.
pub(crate) fn find_marked<M: Memory>(
    memory: &M,
    index: &Index,
    marks: &ByKey<bool>,
    digest: &Digest,
) -> Option<u32>
    requires { ⟦<Index as Indexing>⟧.indexes index.now (M.seen memory.now).live }
    ensures found { IfSome result (λ s. (c : Clause)
        × (maps.get (M.seen memory.now).live s ≡ Some c)
        × (is_match (λ l. is_marked (at marks.now l)) digest.now.len c ≡ true)) }
    ensures none { IfNone result ((s : ℕ) (c : Clause) →
        maps.get (M.seen memory.now).live s ≡ Some c →
        hash (seed_of index.now) c ≡ digest.now.hash →
        is_match (λ l. is_marked (at marks.now l)) digest.now.len c ≡ false) }
{
    index.find(
        digest.hash,
        &Marked {
            memory,
            marks,
            len: digest.len,
        },
    )
}

/// A slot other than this one that has a clause of the literal alone, if there is one.
pub(crate) fn find_unit<M: Memory>(memory: &M, index: &Index, l: Lit, slot: usize) -> Option<u32>
    requires { ⟦<Index as Indexing>⟧.indexes index.now (M.seen memory.now).live }
    ensures other { IfSome result (λ s. s ≢ slot) }
    ensures unit { IfSome result (λ s. maps.get (M.seen memory.now).live s ≡ Some (l ∷ [])) }
    ensures none { IfNone result ((s : ℕ) → s ≢ slot →
        maps.get (M.seen memory.now).live s ≢ Some (l ∷ [])) }
{
    index.find(
        upper_half(mixed(index.seed(), l)),
        &OtherUnit {
            memory,
            literal: l,
            slot,
        },
    )
}
