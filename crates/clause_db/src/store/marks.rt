//! Walks over a clause that mark and compare its literals. Each is linear in the clause.

ghost use Rattle.std.specs.Prelude.{◌≡◌, ℕ, ◌+◌, ◌<◌, ◌≤◌, ◌==◌, ◌&&◌, true, false, is_some, []};
ghost use Rattle.std.specs.Prelude.{length, if◌then◌else◌, IsSome, IsTrue, IfOk, OnOk};
ghost use Rattle.std.specs.Prelude.{vec_capacity};
ghost use Rattle.std.specs.List.{list_all};
ghost use Rattle.cnf_base.specs.Literals.{has, same_clause, size};
ghost use Rattle.clause_index.specs.Hashes.{hash};
ghost use Rattle.clause_db.specs.Store.{is_tautology};
ghost use Rattle.clause_db.specs.Code.LiteralMarks.{is_marked};
ghost use Rattle.tables.specs.ByKey.{at};

use crate::store::mark::{add_mark, clear_mark, set_mark};
use clause_index::{mixed, upper_half};
use cnf_base::{Lit, OutOfMemory};
use tables::{ByKey, key};

/// How many different literals a clause has, and its hash as a set, by a seed.
#[derive(Clone, Copy)]
pub(crate) struct Digest {
    pub(crate) len: usize,
    pub(crate) hash: u32,
}

/// Makes room in the table for the literals and marks them, where none is marked, and counts the
/// different ones.
#[tactic(auto, using(cnf_base::proofs::WalkLemmas::has_take))]
pub(crate) fn mark_new(marks: &mut ByKey<bool>, lits: &[Lit]) -> Result<usize, OutOfMemory>
    requires { (l : ℕ) → is_marked (at marks.old l) ≡ false }
    ensures len { IfOk result (λ len. len ≡ size lits.now) }
    ensures short { OnOk result (size lits.now < 18446744073709551616) }
    ensures known { OnOk result
        ((l : ℕ) → has lits.now l ≡ true → IsSome (at marks.new l)) }
    ensures still_known { (l : ℕ) → IsSome (at marks.old l) → IsSome (at marks.new l) }
    ensures all { OnOk result ((l : ℕ) → is_marked (at marks.new l) ≡ has lits.now l) }
    ensures some { (l : ℕ) → is_marked (at marks.new l) ≡ true → has lits.now l ≡ true }
{
    let mut len = 0;
    for l in lits {
        if add_mark(marks, *l)? {
            len += 1;
        }
    }
    Ok(len)
}

/// Whether the literal is one of a few. No call of a general search is worth its while for so few.
#[inline(always)]
fn is_among(lits: &[Lit], l: Lit) -> bool
    ensures { result ≡ has lits.now l }
{
    for other in lits {
        if *other == l {
            return true;
        }
    }
    false
}

/// Whether no literal is repeated. It takes a time that grows with the square of how many there are.
#[inline(always)]
#[tactic(auto, using(crate::proofs::StoreLemmas::Marks::size_more))]
pub(crate) fn are_different(lits: &[Lit]) -> bool
    ensures { result ≡ true → size lits.now ≡ length lits.now }
{
    for (i, l) in lits.iter().enumerate() {
        if is_among(&lits[..i], *l) {
            return false;
        }
    }
    true
}

/// Whether a literal and its complement are among a few. It takes a time that grows with the square
/// of how many there are.
#[inline(always)]
pub(crate) fn few_have_complements(lits: &[Lit]) -> bool
    ensures { result ≡ is_tautology lits.now }
{
    for (i, l) in lits.iter().enumerate() {
        if is_among(&lits[..i], l.neg()) {
            return true;
        }
    }
    false
}

/// Marks the literals, where none is marked, up to the first one whose complement is marked by then.
/// Tells whether there is one.
fn mark_up_to_complement(marks: &mut ByKey<bool>, lits: &[Lit]) -> bool
    requires known { (l : ℕ) → has lits.now l ≡ true → IsSome (at marks.old l) }
    requires clear { (l : ℕ) → is_marked (at marks.old l) ≡ false }
    ensures yes { result ≡ is_tautology lits.now }
    ensures some { (l : ℕ) → is_marked (at marks.new l) ≡ true → has lits.now l ≡ true }
    ensures known { (l : ℕ) → is_some (at marks.new l) ≡ is_some (at marks.old l) }
{
    for l in lits {
        if is_set(marks, l.neg()) {
            return true;
        }
        set_mark(marks, *l);
    }
    false
}

/// Whether a literal and its complement are among these, where none is marked.
pub(crate) fn have_complements(marks: &mut ByKey<bool>, lits: &[Lit]) -> bool
    requires known { (l : ℕ) → has lits.now l ≡ true → IsSome (at marks.old l) }
    requires clear { (l : ℕ) → is_marked (at marks.old l) ≡ false }
    ensures yes { result ≡ is_tautology lits.now }
    ensures clear { (l : ℕ) → is_marked (at marks.new l) ≡ false }
    ensures known { (l : ℕ) → is_some (at marks.new l) ≡ is_some (at marks.old l) }
{
    let is_tautology = mark_up_to_complement(marks, lits);
    unmark_all(marks, lits);
    is_tautology
}

/// Makes room in the table for the literals.
#[inline(always)]
pub(crate) fn make_known(marks: &mut ByKey<bool>, lits: &[Lit]) -> Result<(), OutOfMemory>
    ensures known { OnOk result
        ((l : ℕ) → has lits.now l ≡ true → IsSome (at marks.new l)) }
    ensures still_known { (l : ℕ) → IsSome (at marks.old l) → IsSome (at marks.new l) }
    ensures marks { (l : ℕ) → is_marked (at marks.new l) ≡ is_marked (at marks.old l) }
{
    for l in lits {
        marks.reserve(key(*l), false)?;
    }
    Ok(())
}

/// Whether the table has each literal.
pub(crate) fn all_known(marks: &ByKey<bool>, lits: &[Lit]) -> bool
    ensures { result ≡ list_all (λ l. is_some (at marks.now l)) lits.now }
{
    lits.iter().all(|l| marks.get(key(*l)).is_some())
}

/// Whether each literal is marked.
pub(crate) fn all_marked(marks: &ByKey<bool>, lits: &[Lit]) -> bool
    ensures { result ≡ list_all (λ l. is_marked (at marks.now l)) lits.now }
{
    lits.iter().all(|l| is_set(marks, *l))
}

fn is_set(marks: &ByKey<bool>, l: Lit) -> bool
    ensures { result ≡ is_marked (at marks.now l) }
{
    marks.get_or(key(l), false)
}

/// Marks the literals, where none is marked, and hashes them by the seed.
pub(crate) fn mark_all(marks: &mut ByKey<bool>, lits: &[Lit], seed: u64) -> Digest
    requires known { (l : ℕ) → has lits.now l ≡ true → IsSome (at marks.old l) }
    requires clear { (l : ℕ) → is_marked (at marks.old l) ≡ false }
    ensures len { result.len ≡ size lits.now }
    ensures short { size lits.now < 18446744073709551616 }
    ensures hash { result.hash ≡ hash seed lits.now }
    ensures marked { (l : ℕ) → is_marked (at marks.new l) ≡ has lits.now l }
    ensures known { (l : ℕ) → is_some (at marks.new l) ≡ is_some (at marks.old l) }
{
    let mut len = 0;
    let mut sum: u64 = 0;
    for l in lits {
        if set_mark(marks, *l) {
            len += 1;
            sum = sum.wrapping_add(mixed(seed, *l));
        }
    }
    Digest {
        len,
        hash: upper_half(sum),
    }
}

/// Takes the marks off the literals, where no others are marked.
pub(crate) fn unmark_all(marks: &mut ByKey<bool>, lits: &[Lit])
    requires { (l : ℕ) → is_marked (at marks.old l) ≡ true → has lits.now l ≡ true }
    ensures clear { (l : ℕ) → is_marked (at marks.new l) ≡ false }
    ensures known { (l : ℕ) → is_some (at marks.new l) ≡ is_some (at marks.old l) }
{
    for l in lits {
        clear_mark(marks, *l);
    }
}

/// Puts each of the marked literals into `kept` once, and takes its mark off.
#[tactic(auto, using(crate::proofs::StoreLemmas::Marks::gather_steps))]
pub(crate) fn gather(marks: &mut ByKey<bool>, lits: &[Lit], kept: &mut Vec<Lit>)
    requires marked { (l : ℕ) → is_marked (at marks.old l) ≡ has lits.now l }
    requires empty { kept.old.items ≡ [] }
    requires room { size lits.now ≤ vec_capacity kept.old }
    ensures same { IsTrue (same_clause kept.new.items lits.now) }
    ensures different { size kept.new.items ≡ length kept.new.items }
    ensures clear { (l : ℕ) → is_marked (at marks.new l) ≡ false }
    ensures known { (l : ℕ) → is_some (at marks.new l) ≡ is_some (at marks.old l) }
{
    for l in lits {
        if clear_mark(marks, *l) {
            kept.push_reserved(*l);
        }
    }
}
