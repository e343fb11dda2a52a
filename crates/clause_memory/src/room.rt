//! Room for a clause: a free block of the size that it needs, or else one behind all others.

ghost use Rattle.std.specs.Prelude.{◌≡◌, ◌≢◌, ℕ, ◌+◌, ◌*◌, ◌<◌, ◌≤◌, ◌++◌, ◌∷◌, length, Some, None};
ghost use Rattle.std.specs.Prelude.{IsSome, IfOk, OnErr, replicate, vec_len, vec_capacity};
ghost use Rattle.std.specs.FinMap as maps;
ghost use Rattle.tables.specs.ByKey.{at};
ghost use Rattle.clause_memory.specs.Blocks.{AddsFewBlocks, cells_for};
ghost use Rattle.clause_memory.specs.Code.Fields.{IsMemory};
ghost use Rattle.clause_memory.specs.Code.Free.{link_of};
ghost use Rattle.clause_memory.specs.Code.Cells.{IsPlaced, blocks_in, clauses_in};
ghost use Rattle.clause_memory.specs.declared.kind.Kind.TheVariants.{Live, Rest};

use crate::kind::Kind;
use crate::reuse::put_in;
use crate::words::{CELL, MOST, append_clause, cells, grow};
use cnf_base::{Lit, OutOfMemory};
use tables::ByKey;

/// A link, which is a cell's number and 1, has four bytes.
const MOST_CELLS: usize = 4294967295;

/// Puts the kinds of a clause's block at the end.
fn append_kinds(kinds: &mut Vec<Kind>, count: usize)
    requires some { 0 < count }
    requires room { vec_len kinds.old + count ≤ vec_capacity kinds.old }
    ensures { (rest : ℕ) → rest + 1 ≡ count →
        kinds.new.items ≡ kinds.old.items ++ Live ∷ replicate rest Rest }
{
    kinds.push_reserved(Kind::Live);
    for _added in 1..count {
        kinds.push_reserved(Kind::Rest);
    }
}

/// Puts a clause behind all others, where no block of the size that it needs is free.
fn append(
    kinds: &mut Vec<Kind>,
    words: &mut Vec<Lit>,
    heads: &mut ByKey<u32>,
    lits: &[Lit],
) -> Result<usize, OutOfMemory>
    requires short { length lits.now ≤ 536870909 }
    requires memory { IsMemory kinds.old.items words.old.items (at heads.old) }
    requires none { link_of (at heads.old (cells_for (length lits.now))) ≡ 0 }
    ensures memory { IsMemory kinds.new.items words.new.items (at heads.new) }
    ensures placed { IfOk result (λ slot. IsPlaced
        (clauses_in kinds.old.items words.old.items) (clauses_in kinds.new.items words.new.items)
        (blocks_in kinds.old.items) (blocks_in kinds.new.items) slot lits.now) }
    ensures few_blocks { AddsFewBlocks (blocks_in kinds.old.items) (blocks_in kinds.new.items)
        (clauses_in kinds.old.items words.old.items) (cells_for (length lits.now)) }
    ensures low { IfOk result (λ slot. slot < 4294967295) }
    ensures same_kinds { OnErr result (kinds.new.items ≡ kinds.old.items) }
    ensures same_words { OnErr result (words.new.items ≡ words.old.items) }
{
    let slot = kinds.len();
    let count = cells(lits.len());
    if count > MOST_CELLS - slot {
        return Err(OutOfMemory);
    }
    heads.reserve(count as u32, 0)?;
    grow(words, count * CELL)?;
    kinds.reserve(count)?;
    append_kinds(kinds, count);
    append_clause(words, lits, count * CELL);
    Ok(slot)
}

/// Puts a clause into the first of the free blocks that have as many cells as it needs, or else
/// behind all others.
#[tactic(auto, using(crate::proofs::RoomLemmas::none_free))]
pub(crate) fn place(
    kinds: &mut Vec<Kind>,
    words: &mut Vec<Lit>,
    heads: &mut ByKey<u32>,
    lits: &[Lit],
) -> Result<usize, OutOfMemory>
    requires memory { IsMemory kinds.old.items words.old.items (at heads.old) }
    ensures memory { IsMemory kinds.new.items words.new.items (at heads.new) }
    ensures placed { IfOk result (λ slot. IsPlaced
        (clauses_in kinds.old.items words.old.items) (clauses_in kinds.new.items words.new.items)
        (blocks_in kinds.old.items) (blocks_in kinds.new.items) slot lits.now) }
    ensures none_was_free { IfOk result (λ slot.
        maps.get (blocks_in kinds.old.items) slot ≡ None → (s : ℕ) →
        maps.get (blocks_in kinds.old.items) s ≡ Some (cells_for (length lits.now)) →
        IsSome (maps.get (clauses_in kinds.old.items words.old.items) s)) }
    ensures few_blocks { AddsFewBlocks (blocks_in kinds.old.items) (blocks_in kinds.new.items)
        (clauses_in kinds.old.items words.old.items) (cells_for (length lits.now)) }
    ensures low { IfOk result (λ slot. slot < 4294967295) }
    ensures same_kinds { OnErr result (kinds.new.items ≡ kinds.old.items) }
    ensures same_words { OnErr result (words.new.items ≡ words.old.items) }
{
    if lits.len() > MOST {
        return Err(OutOfMemory);
    }
    match heads.get(cells(lits.len()) as u32) {
        Some(link) if link > 0 => {
            let slot = link as usize - 1;
            put_in(kinds, words, heads, slot, lits);
            Ok(slot)
        }
        _ => append(kinds, words, heads, lits),
    }
}
