//! How many of the kept literals have a reason with a literal.
//!
//! A literal that is taken back must not be needed by another. A look at all the reasons behind it
//! would cost as much as there are, for each unit clause that is deleted. So they are counted by
//! the literals that they have: where none has its complement, nothing behind is looked at.
//!
//! A reason is counted where this is asked for, and not when its literal is set: most never are. It
//! costs its length, once, and again where its literal is taken back. A count may be too high, and
//! is where the unit clause of a true literal takes the place of its reason: then the reasons
//! behind are looked at.

ghost use Rattle.std.specs.Prelude.{◌≡◌, ◌≢◌, ℕ, ◌+◌, ◌<◌, ◌≤◌, ◌==◌, ◌&&◌, true, false};
ghost use Rattle.std.specs.Prelude.{if◌then◌else◌, length, take, option_map, unwrap_or, IsTrue};
ghost use Rattle.std.specs.FinMap as maps;
ghost use Rattle.cnf_base.specs.Literals.{Literal, has, size};
ghost use Rattle.root_literals.specs.Uses.{AreCounted, clause_in, is_in, times};
ghost use Rattle.tables.specs.ByKey.{at};

use clause_db::Store;
use cnf_base::{Lit, OutOfMemory};
use std::alloc::Global;
use tables::{ByKey, key};

/// By literal how many of the first kept literals have a reason with it, or a higher number.
#[derive(Drop)]
pub struct Uses {
    counts: ByKey<u32>,
    /// The reasons of so many literals are counted.
    counted: usize,
}

/// Counts a literal once more, if there is room for its count.
fn count_up(counts: &mut ByKey<u32>, l: Lit) -> bool
    ensures { (k : ℕ) → unwrap_or (at counts.old k) 0 + (if result && k == l then 1 else 0) ≡
        unwrap_or (at counts.new k) 0 }
{
    let Some(count) = counts.get(key(l)) else {
        return false;
    };
    let Some(more) = count.checked_add(1) else {
        return false;
    };
    counts.set(key(l), more);
    true
}

/// Counts a literal once less.
fn count_down(counts: &mut ByKey<u32>, l: Lit)
    ensures { (k : ℕ) → unwrap_or (at counts.old k) 0 ≤
        unwrap_or (at counts.new k) 0 + (if k == l then 1 else 0) }
{
    if let Some(count) = counts.get(key(l)) {
        counts.set(key(l), count.saturating_sub(1));
    }
}

/// Counts each of the literals once more, or some of them where there is no room for the count of
/// one.
#[tactic(auto, using(crate::proofs::RootLemmas::Steps::use_steps))]
fn count_all(counts: &mut ByKey<u32>, lits: &[Lit]) -> bool
    ensures { (k : ℕ) → unwrap_or (at counts.old k) 0
        + (if result && has lits.now k then 1 else 0) ≤ unwrap_or (at counts.new k) 0 }
{
    for l in lits {
        if !count_up(counts, *l) {
            return false;
        }
    }
    true
}

/// Counts each of the literals once less, where none is repeated.
#[tactic(auto, using(clause_db::proofs::StoreLemmas::Counts::met_more))]
fn release(counts: &mut ByKey<u32>, lits: &[Lit])
    requires different { size lits.now ≡ length lits.now }
    ensures { (k : ℕ) → unwrap_or (at counts.old k) 0 ≤
        unwrap_or (at counts.new k) 0 + (if has lits.now k then 1 else 0) }
{
    for l in lits {
        count_down(counts, *l);
    }
}

/// The clause that is the reason of a literal, as the table has it.
pub(crate) fn reason_of<'a>(store: &'a Store, reasons: &ByKey<u32>, l: Lit) -> Option<&'a [Lit]>
    ensures { option_map (λ c. c.now) result ≡
        clause_in (maps.get store.now.live) (at reasons.now l) }
{
    let slot = reasons.get(key(l))?;
    store.at(slot as usize)
}

/// Counts the literals of the reason of a literal once more, if there is room for their counts.
fn count_reason(counts: &mut ByKey<u32>, store: &Store, reasons: &ByKey<u32>, l: Lit) -> bool
    ensures { (k : ℕ) → unwrap_or (at counts.old k) 0
        + (if result && is_in (clause_in (maps.get store.now.live) (at reasons.now l)) k
        then 1 else 0) ≤ unwrap_or (at counts.new k) 0 }
{
    match reason_of(store, reasons, l) {
        Some(clause) => count_all(counts, clause),
        None => true,
    }
}

/// Counts the literals of the reason of a literal once less.
fn release_reason(counts: &mut ByKey<u32>, store: &Store, reasons: &ByKey<u32>, l: Lit)
    ensures { (k : ℕ) → unwrap_or (at counts.old k) 0 ≤ unwrap_or (at counts.new k) 0
        + (if is_in (clause_in (maps.get store.now.live) (at reasons.now l)) k then 1 else 0) }
{
    store.recall_invariant();
    if let Some(clause) = reason_of(store, reasons, l) {
        release(counts, clause);
    }
}

impl Uses {
    /// None is counted. It takes no memory.
    pub(crate) fn new(alloc: Global) -> Self
        ensures { result.counted ≡ 0 }
    {
        Uses {
            counts: ByKey::new(alloc),
            counted: 0,
        }
    }

    /// Makes room for the counts of a literal and of its complement.
    pub(crate) fn reserve(&mut self, l: Lit) -> Result<(), OutOfMemory>
        ensures times { (k : ℕ) → times self.new k ≡ times self.old k }
        ensures counted { self.new.counted ≡ self.old.counted }
    {
        self.counts.reserve(key(l), 0)?;
        self.counts.reserve(key(l.neg()), 0)
    }

    /// Counts the reasons of the literals that were set since, as long as there is room for their
    /// counts. It takes no memory.
    pub(crate) fn count(&mut self, store: &Store, reasons: &ByKey<u32>, lits: &[Lit])
        requires { AreCounted (maps.get store.now.live) (at reasons.now) lits.now self.old }
        ensures { AreCounted (maps.get store.now.live) (at reasons.now) lits.now self.new }
    {
        while self.counted < lits.len() {
            if !count_reason(&mut self.counts, store, reasons, lits[self.counted]) {
                return;
            }
            self.counted += 1;
        }
    }

    /// Whether it is known by the counts that no literal has a reason with `k`.
    #[tactic(auto, using(crate::proofs::RootLemmas::Steps::unused_steps))]
    pub(crate) fn is_unused(
        &self,
        store: &Store,
        reasons: &ByKey<u32>,
        lits: &[Lit],
        k: Lit,
    ) -> bool
        requires { AreCounted (maps.get store.now.live) (at reasons.now) lits.now self.now }
        ensures { result ≡ true → (l : Literal) → IsTrue (has lits.now l) →
            is_in (clause_in (maps.get store.now.live) (at reasons.now l)) k ≡ false }
    {
        self.counted == lits.len() && self.counts.get_or(key(k), 0) == 0
    }

    /// Only the first so many literals are to be left: the reasons of the others are counted no
    /// longer. It takes no memory.
    pub(crate) fn cut(&mut self, store: &Store, reasons: &ByKey<u32>, lits: &[Lit], len: usize)
        ensures counted { AreCounted (maps.get store.now.live) (at reasons.now) lits.now self.old →
            AreCounted (maps.get store.now.live) (at reasons.now) (take len lits.now) self.new }
        ensures inside { self.new.counted ≤ len }
    {
        while self.counted > len {
            self.counted -= 1;
            if self.counted < lits.len() {
                release_reason(&mut self.counts, store, reasons, lits[self.counted]);
            }
        }
    }

    /// The literal at this place, whose reason has it and no other, is taken back. It takes no
    /// memory.
    pub(crate) fn take_out(&mut self, place: usize, l: Lit)
        ensures fewer { place < self.old.counted → self.new.counted + 1 ≡ self.old.counted }
        ensures times { (k : ℕ) → times self.old k ≤
            times self.new k + (if k == l then 1 else 0) }
        ensures stays { self.old.counted ≤ place → self.new ≡ self.old }
    {
        if place < self.counted {
            count_down(&mut self.counts, l);
            self.counted -= 1;
        }
    }

    /// The literal at this place gets another reason. It takes no memory.
    pub(crate) fn exchange(&mut self, place: usize, before: &[Lit], after: &[Lit])
        requires different { size before.now ≡ length before.now }
        ensures counted { self.new.counted ≢ 0 → self.new.counted ≡ self.old.counted }
        ensures times { self.new.counted ≢ 0 → place < self.old.counted → (k : ℕ) →
            times self.old k + (if has after.now k then 1 else 0) ≤
            times self.new k + (if has before.now k then 1 else 0) }
        ensures stays { self.old.counted ≤ place → self.new ≡ self.old }
    {
        if place >= self.counted {
            return;
        }
        if count_all(&mut self.counts, after) {
            release(&mut self.counts, before);
        } else {
            self.counted = 0;
        }
    }
}
