//! How a clause comes into the memory, without repeated literals.

ghost use Rattle.std.specs.Prelude.{◌≡◌, ℕ, ◌+◌, ◌≤◌, true, false, is_some, length};
ghost use Rattle.std.specs.Prelude.{IsTrue, IsSome, IfOk, OnOk, OnErr};
ghost use Rattle.cnf_base.specs.Literals.{has, same_clause, size};
ghost use Rattle.clause_db.specs.Store.{slots_for};
ghost use Rattle.clause_db.specs.Code.Fields.{IsTakenIn};
ghost use Rattle.clause_db.specs.Code.LiteralMarks.{is_marked};
ghost use Rattle.tables.specs.ByKey.{at};

use crate::store::marks::{are_different, gather, make_known, mark_new, unmark_all};
use clause_memory::Memory;
use cnf_base::{Lit, OutOfMemory};
use std::alloc::Global;
use tables::ByKey;

/// So many literals are compared with one another.
pub(crate) const FEW: usize = 8;

/// The marked literals, each once, where so many are marked. Their marks are taken off.
fn without_repeats(
    alloc: Global,
    marks: &mut ByKey<bool>,
    lits: &[Lit],
    len: usize,
) -> Result<Vec<Lit>, OutOfMemory>
    requires marked { (l : ℕ) → is_marked (at marks.old l) ≡ has lits.now l }
    requires len { len ≡ size lits.now }
    ensures same { IfOk result (λ kept. IsTrue (same_clause kept.items lits.now)) }
    ensures different { IfOk result (λ kept. size kept.items ≡ length kept.items) }
    ensures some { (l : ℕ) → is_marked (at marks.new l) ≡ true → has lits.now l ≡ true }
    ensures known { (l : ℕ) → is_some (at marks.new l) ≡ is_some (at marks.old l) }
{
    let mut kept = Vec::with_capacity(alloc, len)?;
    gather(marks, lits, &mut kept);
    Ok(kept)
}

/// Marks literals of a clause, and puts it into the memory, without repeated ones.
fn put_in<M: Memory>(
    alloc: Global,
    memory: &mut M,
    marks: &mut ByKey<bool>,
    lits: &[Lit],
) -> Result<usize, OutOfMemory>
    requires { (l : ℕ) → is_marked (at marks.old l) ≡ false }
    ensures taken { IfOk result (λ slot.
        IsTakenIn (M.seen memory.old) (M.seen memory.new) slot lits.now) }
    ensures known { OnOk result ((l : ℕ) → has lits.now l ≡ true → IsSome (at marks.new l)) }
    ensures still_known { (l : ℕ) → IsSome (at marks.old l) → IsSome (at marks.new l) }
    ensures some { (l : ℕ) → is_marked (at marks.new l) ≡ true → has lits.now l ≡ true }
    ensures err { OnErr result (M.seen memory.new ≡ M.seen memory.old) }
    ensures few_slots { (M.seen memory.new).slots ≤
        (M.seen memory.old).slots + slots_for (size lits.now) }
{
    let len = mark_new(marks, lits)?;
    if len == lits.len() {
        return memory.insert(lits);
    }
    let kept = without_repeats(alloc, marks, lits, len)?;
    memory.insert(&kept)
}

/// Puts a clause into the memory, without repeated literals. A short one is compared in place, since
/// a mark is a load that no cache has where there are many variables.
pub(crate) fn take_in<M: Memory>(
    alloc: Global,
    memory: &mut M,
    marks: &mut ByKey<bool>,
    lits: &[Lit],
) -> Result<usize, OutOfMemory>
    requires { (l : ℕ) → is_marked (at marks.old l) ≡ false }
    ensures clear { (l : ℕ) → is_marked (at marks.new l) ≡ false }
    ensures taken { IfOk result (λ slot.
        IsTakenIn (M.seen memory.old) (M.seen memory.new) slot lits.now) }
    ensures known { OnOk result ((l : ℕ) → has lits.now l ≡ true → IsSome (at marks.new l)) }
    ensures still_known { (l : ℕ) → IsSome (at marks.old l) → IsSome (at marks.new l) }
    ensures err { OnErr result (M.seen memory.new ≡ M.seen memory.old) }
    ensures few_slots { (M.seen memory.new).slots ≤
        (M.seen memory.old).slots + slots_for (size lits.now) }
{
    if lits.len() <= FEW && are_different(lits) {
        make_known(marks, lits)?;
        return memory.insert(lits);
    }
    let taken = put_in(alloc, memory, marks, lits);
    unmark_all(marks, lits);
    taken
}
