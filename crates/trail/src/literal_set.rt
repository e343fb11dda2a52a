//! A set of literals in which each literal is looked up at once.

ghost use Rattle.std.specs.Prelude.{◌≡◌, ℕ, ◌≤◌, if◌then◌else◌, IsFalse, IsSome, IsTrue, OnOk};
ghost use Rattle.std.specs.Prelude.{OnErr};
ghost use Rattle.std.specs.List.{list_any};
ghost use Rattle.trail.specs.Reduced.{is_reduced};
ghost use Rattle.cnf_base.specs.Literals.{complement, has};
ghost use Rattle.trail.specs.Numbers.{number_at};
ghost use Rattle.tables.specs.ByKey.{at};

use cnf_base::{Lit, OutOfMemory};
use std::alloc::Global;
use tables::{ByKey, key};

/// A set of literals. It is filled again and again, and keeps its room.
///
/// By literal it notes the number of the last filling that has it, so that emptying it takes no
/// walk.
#[derive(Drop)]
pub struct LiteralSet {
    alloc: Global,
    numbers: ByKey<u64>,
    /// The number of the last filling.
    last: u64,
    ghost few: { (l : ℕ) → number_at numbers l ≤ last },
}

/// Makes room for the literals.
fn reserve_literals(numbers: &mut ByKey<u64>, lits: &[Lit]) -> Result<(), OutOfMemory>
    ensures known { OnOk result
        ((l : ℕ) → IsTrue (has lits.now l) → IsSome (at numbers.new l)) }
    ensures numbers { (l : ℕ) → number_at numbers.new l ≡ number_at numbers.old l }
{
    for l in lits {
        numbers.reserve(key(*l), 0)?;
    }
    Ok(())
}

/// Notes the literals with the number.
fn number_literals(numbers: &mut ByKey<u64>, lits: &[Lit], number: u64)
    requires known { (l : ℕ) → IsTrue (has lits.now l) → IsSome (at numbers.old l) }
    ensures numbers { (l : ℕ) → number_at numbers.new l ≡
        (if has lits.now l then number else number_at numbers.old l) }
{
    for l in lits {
        numbers.set(key(*l), number);
    }
}

impl LiteralSet {
    ghost use Rattle.trail.specs.LiteralSet.{in_set};

    /// No literals. It takes no memory.
    #[tactic(auto, unfolding(crate::specs::LiteralSet::in_set))]
    pub fn new(alloc: Global) -> Self
        ensures { (l : ℕ) → IsFalse (in_set result l) }
    {
        LiteralSet {
            alloc,
            numbers: ByKey::new(alloc),
            last: 1,
        }
    }

    /// Has no literals from now on. It takes no memory, and its room stays unless the numbers of
    /// fillings run out.
    #[tactic(auto, unfolding(crate::specs::LiteralSet::in_set))]
    pub fn clear(&mut self)
        ensures { (l : ℕ) → IsFalse (in_set self.new l) }
    {
        match self.last.checked_add(1) {
            Some(number) => self.last = number,
            None => *self = LiteralSet::new(self.alloc),
        }
    }

    /// Has these literals from now on, and no others.
    ///
    /// # Errors
    ///
    /// Where memory runs out. It has none then.
    #[tactic(auto, unfolding(crate::specs::LiteralSet::in_set))]
    pub fn fill(&mut self, lits: &[Lit]) -> Result<(), OutOfMemory>
        ensures ok { OnOk result ((l : ℕ) → in_set self.new l ≡ has lits.now l) }
        ensures err { OnErr result ((l : ℕ) → IsFalse (in_set self.new l)) }
    {
        self.clear();
        reserve_literals(&mut self.numbers, lits)?;
        number_literals(&mut self.numbers, lits, self.last);
        Ok(())
    }

    /// Whether it has the literal.
    #[tactic(auto, unfolding(crate::specs::LiteralSet::in_set))]
    pub fn has(&self, l: Lit) -> bool
        ensures { result ≡ in_set self.now l }
    {
        self.numbers.get_or(key(l), 0) == self.last
    }

    /// Whether it has some literal of the clause.
    fn meets(&self, clause: &[Lit]) -> bool
        ensures { result ≡ list_any (in_set self.now) clause.now }
    {
        clause.iter().any(|l| self.has(*l))
    }

    /// Whether it makes some literal of the clause false.
    pub fn falsifies(&self, clause: &[Lit]) -> bool
        ensures { result ≡ list_any (λ l. in_set self.now (complement l)) clause.now }
    {
        clause.iter().any(|l| self.has(l.neg()))
    }

    /// Whether it makes some literal of the clause false and none true.
    pub fn reduces(&self, clause: &[Lit]) -> bool
        ensures { result ≡ is_reduced (in_set self.now) clause.now }
    {
        self.falsifies(clause) && !self.meets(clause)
    }
}
