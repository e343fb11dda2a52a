//! How many of the clauses have a literal, where this is counted.
//!
//! RAT counts its candidates before it seeks them. A store counts from when it is told to. Before
//! that a call goes over all clauses. To count a formula's literals in one loop takes a fourth of
//! the time of counting them clause by clause, since the loads of the loop overlap.

ghost use Rattle.std.specs.Prelude.{◌≡◌, ℕ, ◌+◌, ◌<◌, ◌==◌, Some, None, length, if◌then◌else◌};
ghost use Rattle.std.specs.Prelude.{true, IsSome, IfOk, OnOk, OnErr};
ghost use Rattle.std.specs.Ordering.{nat_cmp};
ghost use Rattle.std.specs.FinMap as maps;
ghost use Rattle.std.specs.FinMap.{FinMap};
ghost use Rattle.cnf_base.specs.Literals.{Clause, has, size};
ghost use Rattle.clause_db.specs.Store.{copies_with};
ghost use Rattle.clause_db.specs.Code.Counts.{AreCounted, count_of};
ghost use Rattle.clause_db.specs.Code.Kept.{has_in};
ghost use Rattle.tables.specs.ByKey.{at};

use clause_memory::Memory;
use cnf_base::{Lit, OutOfMemory};
use std::alloc::Global;
use tables::{ByKey, key};

/// How often a literal is counted.
fn count_at(counts: &ByKey<u32>, l: Lit) -> u32
    ensures { result ≡ count_of (at counts.now l) }
{
    counts.get_or(key(l), 0)
}

/// Counts a literal once more, for which it makes room.
fn count_up(counts: &mut ByKey<u32>, l: Lit) -> Result<(), OutOfMemory>
    requires { count_of (at counts.old l) < 4294967295 }
    ensures ok { OnOk result ((k : ℕ) → count_of (at counts.new k) ≡
        count_of (at counts.old k) + (if k == l then 1 else 0)) }
    ensures err { OnErr result
        ((k : ℕ) → count_of (at counts.new k) ≡ count_of (at counts.old k)) }
{
    counts.reserve(key(l), 0)?;
    let count = count_at(counts, l);
    counts.set(key(l), count + 1);
    Ok(())
}

/// Counts a literal once less.
fn count_down(counts: &mut ByKey<u32>, l: Lit)
    requires { 0 < count_of (at counts.old l) }
    ensures { (k : ℕ) →
        count_of (at counts.new k) + (if k == l then 1 else 0) ≡ count_of (at counts.old k) }
{
    if let Some(count) = counts.get(key(l)) {
        counts.set(key(l), count - 1);
    }
}

/// Counts each of the literals once less, where no literal is repeated.
#[tactic(auto, using(crate::proofs::StoreLemmas::Counts::count_steps))]
fn release(counts: &mut ByKey<u32>, lits: &[Lit])
    requires different { size lits.now ≡ length lits.now }
    requires counted { (l : ℕ) → has lits.now l ≡ true → 0 < count_of (at counts.old l) }
    ensures { (l : ℕ) → count_of (at counts.new l) +
        (if has lits.now l then 1 else 0) ≡ count_of (at counts.old l) }
{
    for l in lits {
        count_down(counts, *l);
    }
}

/// Counts each of the literals once more, where no literal is repeated. Where memory is refused, it
/// counts none.
#[tactic(auto, using(crate::proofs::StoreLemmas::Counts::count_steps))]
fn count_all(counts: &mut ByKey<u32>, lits: &[Lit]) -> Result<(), OutOfMemory>
    requires different { size lits.now ≡ length lits.now }
    requires few { (l : ℕ) → count_of (at counts.old l) < 4294967295 }
    ensures ok { OnOk result ((l : ℕ) → count_of (at counts.new l) ≡
        count_of (at counts.old l) + (if has lits.now l then 1 else 0)) }
    ensures err { OnErr result
        ((l : ℕ) → count_of (at counts.new l) ≡ count_of (at counts.old l)) }
{
    for (i, l) in lits.iter().enumerate() {
        if let Err(refused) = count_up(counts, *l) {
            release(counts, &lits[..i]);
            return Err(refused);
        }
    }
    Ok(())
}

/// Counts the literals of the clause in a slot, if there is one.
fn count_slot<M: Memory>(
    counts: &mut ByKey<u32>,
    memory: &M,
    slot: usize,
) -> Result<(), OutOfMemory>
    requires different { (c : Clause) → maps.get (M.seen memory.now).live slot ≡ Some c →
        size c ≡ length c }
    requires few { IsSome (maps.get (M.seen memory.now).live slot) →
        (l : ℕ) → count_of (at counts.old l) < 4294967295 }
    ensures { OnOk result ((l : ℕ) → count_of (at counts.new l) ≡
        count_of (at counts.old l)
        + (if has_in (maps.get (M.seen memory.now).live slot) l then 1 else 0)) }
{
    match memory.at(slot) {
        Some(lits) => count_all(counts, lits),
        None => Ok(()),
    }
}

/// By literal how many of the clauses have it.
#[tactic(auto, using(crate::proofs::StoreLemmas::Counts::count_whole))]
fn counts_in<M: Memory>(alloc: Global, memory: &M) -> Result<ByKey<u32>, OutOfMemory>
    requires { (s : ℕ) (c : Clause) → maps.get (M.seen memory.now).live s ≡ Some c →
        size c ≡ length c }
    ensures { IfOk result (λ counts. AreCounted (Some counts) (M.seen memory.now).live) }
{
    memory.recall_invariant();
    let mut counts = ByKey::new(alloc);
    for slot in 0..memory.end() {
        count_slot(&mut counts, memory, slot)?;
    }
    Ok(counts)
}

/// Whether there is a clause in the slot, and it has the literal.
fn has_at<M: Memory>(memory: &M, slot: usize, l: Lit) -> bool
    ensures { result ≡ has_in (maps.get (M.seen memory.now).live slot) l }
{
    match memory.at(slot) {
        Some(lits) => lits.contains(&l),
        None => false,
    }
}

/// How many of the clauses have the literal, found by going over all.
fn copies_in<M: Memory>(memory: &M, l: Lit) -> u64
    ensures { result ≡ copies_with (M.seen memory.now).live l }
{
    let mut count = 0;
    for slot in 0..memory.end() {
        if has_at(memory, slot, l) {
            count += 1;
        }
    }
    count
}

/// Keeps the counts from now on.
pub(crate) fn keep<M: Memory>(
    counts: &mut Option<ByKey<u32>>,
    alloc: Global,
    memory: &M,
) -> Result<(), OutOfMemory>
    requires different { (s : ℕ) (c : Clause) → maps.get (M.seen memory.now).live s ≡ Some c →
        size c ≡ length c }
    requires counted { AreCounted counts.old (M.seen memory.now).live }
    ensures counted { AreCounted counts.new (M.seen memory.now).live }
    ensures kept { OnOk result (IsSome counts.new) }
{
    if counts.is_none() {
        *counts = Some(counts_in(alloc, memory)?);
    }
    Ok(())
}

/// How many of the clauses have the literal.
pub(crate) fn count_with<M: Memory>(counts: &Option<ByKey<u32>>, memory: &M, l: Lit) -> u64
    requires { AreCounted counts.now (M.seen memory.now).live }
    ensures { result ≡ copies_with (M.seen memory.now).live l }
{
    match counts {
        Some(counts) => u64::from(count_at(counts, l)),
        None => copies_in(memory, l),
    }
}

/// Counts the literals of a further clause, where the counts are kept.
#[tactic(auto, using(crate::proofs::StoreLemmas::Counts::copies_few))]
pub(crate) fn count_in(counts: &mut Option<ByKey<u32>>, lits: &[Lit]) -> Result<(), OutOfMemory>
    requires different { size lits.now ≡ length lits.now }
    requires few { (live : FinMap nat_cmp Clause) × AreCounted counts.old live
        × (maps.len live < 4294967295) }
    ensures ok { OnOk result ((live : FinMap nat_cmp Clause) (slot : ℕ) →
        AreCounted counts.old live → maps.get live slot ≡ None →
        AreCounted counts.new (maps.insert live slot lits.now)) }
    ensures err { OnErr result ((live : FinMap nat_cmp Clause) → AreCounted counts.old live →
        AreCounted counts.new live) }
{
    match counts {
        Some(counts) => count_all(counts, lits),
        None => Ok(()),
    }
}

/// Counts the literals of a clause no longer, where the counts are kept. It takes no memory.
#[tactic(auto, using(crate::proofs::StoreLemmas::Counts::counted_here))]
pub(crate) fn count_out(counts: &mut Option<ByKey<u32>>, lits: &[Lit])
    requires different { size lits.now ≡ length lits.now }
    requires there { (live : FinMap nat_cmp Clause) × (slot : ℕ) × AreCounted counts.old live
        × (maps.get live slot ≡ Some lits.now) }
    ensures { (live : FinMap nat_cmp Clause) (slot : ℕ) → AreCounted counts.old live →
        maps.get live slot ≡ Some lits.now → AreCounted counts.new (maps.remove live slot) }
{
    if let Some(counts) = counts {
        release(counts, lits);
    }
}
