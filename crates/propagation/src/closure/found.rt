//! Literals that follow with nothing assumed, past a clash too.

ghost use Rattle.std.specs.Prelude.{◌≡◌, ◌++◌, ◌∷◌, [], IsTrue, OnOk, length, take};
ghost use Rattle.cnf_base.specs.Literals.{Literal, has};
ghost use Rattle.propagation.specs.Code.Closure.{FollowsFrom, TakesIn};
ghost use Rattle.theory.specs.Propagation.{open_literals};
ghost use Rattle.trail.specs.Left.{how_many};

use cnf_base::{Lit, OutOfMemory};
use std::alloc::Global;
use std::marker::Model;
use tables::{ByKey, key};
use trail::{Left, Truths, left_of};

/// Literals that were found to follow from live clauses with nothing assumed. Past a clash both
/// literals of a variable may be among them, which a trail cannot hold.
///
/// Contracts see it as the list of its literals, in the order in which they were found.
#[derive(Drop)]
pub(crate) struct Found {
    lits: Vec<Lit>,
    /// By literal whether it is among them.
    marks: ByKey<bool>,
}

impl Model for Found {
    ghost use Rattle.std.specs.Prelude.{◌≡◌, ℕ, List, unwrap_or, false};
    ghost use Rattle.cnf_base.specs.Literals.{has};
    ghost use Rattle.tables.specs.ByKey.{at};

    ghost Value = { List ℕ };

    // Each field has to be named here. The list is shown; the table has a mark for each literal of
    // the list and no other.
    ghost view = { λ record { lits = lits; marks = _ }. lits.items };

    ghost invariant = { λ f. (l : ℕ) →
        unwrap_or (at f.marks l) false ≡ has f.lits.items l };
}

impl Truths for Found {
    ghost trues = { λ f. f };

    fn falsifies(&self, l: Lit) -> bool {
        self.has(l.neg())
    }
}

impl Found {
    /// No literals. It takes no memory.
    pub(crate) fn new(alloc: Global) -> Self
        ensures { result ≡ [] }
    {
        Found {
            lits: Vec::new(alloc),
            marks: ByKey::new(alloc),
        }
    }

    /// The literals, in the order in which they were found.
    pub(crate) fn lits(&self) -> &[Lit]
        ensures { result.now ≡ self.now }
    {
        self.lits.as_slice()
    }

    /// Whether it has the literal. It takes no memory.
    fn has(&self, l: Lit) -> bool
        ensures { result ≡ has self.now l }
    {
        self.marks.get_or(key(l), false)
    }

    /// What is left of a clause where its literals are true. It takes no memory.
    pub(crate) fn left(&self, clause: &[Lit]) -> Left
        ensures { result ≡ how_many (open_literals self.now clause.now) }
    {
        left_of(self, clause)
    }

    /// Adds a literal, if it is new.
    fn add(&mut self, l: Lit) -> Result<(), OutOfMemory>
        ensures lits { OnOk result ((k : Literal) → has self.new k ≡
            has (self.old ++ l ∷ []) k) }
        ensures begins { OnOk result (take (length self.old) self.new ≡ self.old) }
    {
        if self.has(l) {
            return Ok(());
        }
        self.lits.reserve(1)?;
        self.marks.reserve(key(l), false)?;
        self.marks.set(key(l), true);
        self.lits.push_reserved(l);
        Ok(())
    }

    /// Adds the literals of a clause that are new.
    fn add_all(&mut self, clause: &[Lit]) -> Result<(), OutOfMemory>
        ensures lits { OnOk result ((k : Literal) → has self.new k ≡
            has (self.old ++ clause.now) k) }
        ensures begins { OnOk result (take (length self.old) self.new ≡ self.old) }
    {
        for l in clause {
            self.add(*l)?;
        }
        Ok(())
    }

    /// Adds what follows from a clause: all its literals where their complements are there, or the
    /// one whose complement is not.
    #[tactic(auto, using(crate::proofs::PropagationLemmas::Closing::take_steps))]
    pub(crate) fn take(&mut self, clause: &[Lit]) -> Result<(), OutOfMemory>
        ensures follows { OnOk result ((l : Literal) → IsTrue (has self.new l) →
            FollowsFrom self.old clause.now l) }
        ensures takes { OnOk result (TakesIn self.old self.new clause.now) }
        ensures begins { OnOk result (take (length self.old) self.new ≡ self.old) }
    {
        match self.left(clause) {
            Left::Nothing => self.add_all(clause),
            Left::One(l) => self.add(l),
            Left::More => Ok(()),
        }
    }
}
