//! Blocks that get a clause, and lose it.

ghost use Rattle.std.specs.Prelude.{◌≡◌, ℕ, ◌+◌, ◌≤◌, length, Some, None};
ghost use Rattle.std.specs.FinMap as maps;
ghost use Rattle.tables.specs.ByKey.{at};
ghost use Rattle.clause_memory.specs.Blocks.{cells_for};
ghost use Rattle.clause_memory.specs.Code.Fields.{IsMemory};
ghost use Rattle.clause_memory.specs.Code.Cells.{blocks_in, clauses_in, kind_at};
ghost use Rattle.clause_memory.specs.declared.kind.Kind.TheVariants.{Live};

use crate::kind::Kind;
use crate::words::{CELL, cells, link, size, wipe, write_clause, write_link};
use cnf_base::Lit;
use tables::ByKey;

/// Puts a clause into the first block of the list of free ones that have its number of cells.
pub(crate) fn put_in(
    kinds: &mut Vec<Kind>,
    words: &mut Vec<Lit>,
    heads: &mut ByKey<u32>,
    slot: usize,
    lits: &[Lit],
)
    requires memory { IsMemory kinds.old.items words.old.items (at heads.old) }
    requires first { at heads.old (cells_for (length lits.now)) ≡ Some (slot + 1) }
    requires short { length lits.now ≤ 536870909 }
    ensures memory { IsMemory kinds.new.items words.new.items (at heads.new) }
    ensures free { maps.get (clauses_in kinds.old.items words.old.items) slot ≡ None }
    ensures block { maps.get (blocks_in kinds.old.items) slot ≡
        Some (cells_for (length lits.now)) }
    ensures blocks { blocks_in kinds.new.items ≡ blocks_in kinds.old.items }
    ensures clauses { clauses_in kinds.new.items words.new.items ≡
        maps.insert (clauses_in kinds.old.items words.old.items) slot lits.now }
{
    heads.set(cells(lits.len()) as u32, link(words, slot) as u32);
    kinds[slot] = Kind::Live;
    write_clause(words, slot, lits);
}

/// Takes the clause out of a block, overwrites it, and puts the block at the front of the list of
/// free ones that have as many cells.
pub(crate) fn take_out(
    kinds: &mut Vec<Kind>,
    words: &mut Vec<Lit>,
    heads: &mut ByKey<u32>,
    slot: usize,
)
    requires memory { IsMemory kinds.old.items words.old.items (at heads.old) }
    requires alive { kind_at kinds.old.items slot ≡ Live }
    ensures memory { IsMemory kinds.new.items words.new.items (at heads.new) }
    ensures blocks { blocks_in kinds.new.items ≡ blocks_in kinds.old.items }
    ensures clauses { clauses_in kinds.new.items words.new.items ≡
        maps.remove (clauses_in kinds.old.items words.old.items) slot }
{
    let count = cells(size(words, slot));
    let first = heads.get_or(count as u32, 0);
    wipe(words, slot * CELL, count * CELL);
    write_link(words, slot, first as usize);
    kinds[slot] = Kind::Free;
    heads.set(count as u32, slot as u32 + 1);
}
