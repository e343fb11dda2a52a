//! The occurrences of literals in the clauses, which are kept from when they are first asked for.
//!
//! They are what RAT and PR find their candidates by. A proof without such a step pays nothing for
//! them; else a step costs what its candidates cost, however many other clauses are alive.

ghost use Rattle.std.specs.Prelude.{◌≡◌, ℕ, ◌<◌, ◌==◌, ◌&&◌, ◌||◌, Some, None, IfOk, OnOk, OnErr};
ghost use Rattle.std.specs.Prelude.{IsSome, false};
ghost use Rattle.std.specs.List.{list_any};
ghost use Rattle.std.specs.List.Sorted.{IsStrictlyIncreasing};
ghost use Rattle.std.specs.Ordering.{nat_cmp};
ghost use Rattle.std.specs.FinMap as maps;
ghost use Rattle.std.specs.FinMap.{FinMap};
ghost use Rattle.cnf_base.specs.Literals.{Clause, complement, has};
ghost use Rattle.occurrences.specs.Occurrences.{occurs};
ghost use Rattle.clause_db.specs.Code.Kept.{AreKept, AreOf, has_in};

use clause_memory::Memory;
use cnf_base::{Lit, OutOfMemory};
use occurrences::Occurrences;
use std::alloc::Global;

/// Notes the clause of a slot, if there is one.
fn note_slot<M: Memory>(
    occurrences: &mut Occurrences,
    memory: &M,
    slot: usize,
) -> Result<(), OutOfMemory>
    requires absent { (l : ℕ) → occurs occurrences.old l slot ≡ false }
    requires low { IsSome (maps.get (M.seen memory.now).live slot) → slot < 4294967296 }
    ensures { OnOk result ((l s : ℕ) → occurs occurrences.new l s ≡
        (occurs occurrences.old l s
        || (s == slot && has_in (maps.get (M.seen memory.now).live s) l))) }
{
    match memory.at(slot) {
        Some(lits) => occurrences.add(slot as u32, lits),
        None => Ok(()),
    }
}

/// The occurrences in the clauses.
fn occurrences_in<M: Memory>(alloc: Global, memory: &M) -> Result<Occurrences, OutOfMemory>
    ensures { IfOk result (λ o. AreOf o (M.seen memory.now).live) }
{
    memory.recall_invariant();
    let mut occurrences = Occurrences::new(alloc);
    for slot in 0..memory.end() {
        note_slot(&mut occurrences, memory, slot)?;
    }
    Ok(occurrences)
}

/// Gathers the slots of the clauses that the literals touch, in ascending order.
pub(crate) fn find_slots<M: Memory>(
    kept: &mut Option<Occurrences>,
    alloc: Global,
    memory: &M,
    lits: &[Lit],
    into: &mut Vec<u32>,
) -> Result<(), OutOfMemory>
    requires { AreKept kept.old (M.seen memory.now).live }
    ensures ascending { OnOk result (IsStrictlyIncreasing into.new.items) }
    ensures slots { OnOk result ((s : ℕ) → has into.new.items s ≡
        list_any (λ l. has_in (maps.get (M.seen memory.now).live s) (complement l)) lits.now) }
    ensures kept { AreKept kept.new (M.seen memory.now).live }
{
    match kept {
        Some(occurrences) => occurrences.slots_touched(lits, into),
        None => {
            let mut made = occurrences_in(alloc, memory)?;
            let gathered = made.slots_touched(lits, into);
            *kept = Some(made);
            gathered
        }
    }
}

/// Notes a further clause, where the occurrences are kept.
pub(crate) fn note(
    kept: &mut Option<Occurrences>,
    slot: usize,
    lits: &[Lit],
) -> Result<(), OutOfMemory>
    requires low { slot < 4294967296 }
    requires free { (live : FinMap nat_cmp Clause) × AreKept kept.old live
        × (maps.get live slot ≡ None) }
    ensures ok { OnOk result ((live : FinMap nat_cmp Clause) → AreKept kept.old live →
        maps.get live slot ≡ None → AreKept kept.new (maps.insert live slot lits.now)) }
    ensures err { OnErr result ((live : FinMap nat_cmp Clause) → AreKept kept.old live →
        AreKept kept.new live) }
{
    match kept {
        Some(occurrences) => occurrences.add(slot as u32, lits),
        None => Ok(()),
    }
}

/// Forgets the slot of a clause, where the occurrences are kept. It takes no memory.
pub(crate) fn forget(kept: &mut Option<Occurrences>, slot: usize)
    requires { (live : FinMap nat_cmp Clause) × AreKept kept.old live
        × IsSome (maps.get live slot) }
    ensures { (live : FinMap nat_cmp Clause) → AreKept kept.old live →
        AreKept kept.new (maps.remove live slot) }
{
    if let Some(occurrences) = kept {
        occurrences.forget(slot as u32);
    }
}
