//! The candidates of a DRAT addition that lacks RUP. They are counted before they are sought.

ghost use Rattle.std.specs.Prelude.{◌≡◌, ◌++◌, ℕ, Some, [], IsSome, IsTrue, IfOk, OnOk, true};
ghost use Rattle.std.specs.List.{list_any};
ghost use Rattle.std.specs.FinMap as maps;
ghost use Rattle.cnf_base.specs.Literals.{Clause, Literal, complement, complements, has};
ghost use Rattle.propagation.specs.Assumptions.{AssumingPart, HasAt, IsAnswer, LastIsAnswered};
ghost use Rattle.propagation.specs.Assumptions.{MayAssume, assumed_by};
ghost use Rattle.propagation.specs.declared.answer.Answer.TheVariants.{Quiet};
ghost use Rattle.theory.specs.Propagation.{Clash};
ghost use Rattle.drat_steps.specs.Code.Candidates.{CanTry, HasClashed, IsWithin, PassesIn, SearchedIn};
ghost use Rattle.drat_steps.specs.Code.Candidates.{is_candidate, is_left, rest_of};
ghost use Rattle.drat_steps.specs.Code.Assumed.{IsAsBefore};

use clause_db::Slot;
use cnf_base::{Lit, OutOfMemory};
use propagation::{Answer, Propagate, Value};
use std::alloc::Global;
use trail::LiteralSet;

/// Which live clauses an addition is tried with.
#[derive(Clone, Copy)]
pub(crate) enum Candidates<'a> {
    /// Those that have the literal; the rest of one is assumed false.
    Holding(Lit),
    /// Those that the witness reduces; what it leaves of one is assumed false.
    ReducedBy(&'a LiteralSet),
}

/// For so many literals room is kept from step to step; more is given back.
const MOST_KEPT: usize = 1024;

/// What is left of the last candidate that clashed. Another one that has all of it clashes too.
#[derive(Drop)]
pub(crate) struct Clashed {
    alloc: Global,
    /// Nothing, where none has: no candidate is tried where nothing more has to be assumed.
    rest: Vec<Lit>,
}

impl Clashed {
    /// Of no candidate. It takes no memory.
    pub(crate) fn new(alloc: Global) -> Self
        ensures { result.rest.items ≡ [] }
    {
        Clashed {
            alloc,
            rest: Vec::new(alloc),
        }
    }

    /// Of no candidate again. Much room is given back, and little stays.
    pub(crate) fn clear(&mut self)
        ensures { self.new.rest.items ≡ [] }
    {
        if self.rest.capacity() > MOST_KEPT {
            self.rest = Vec::new(self.alloc);
        } else {
            self.rest.clear();
        }
    }

    /// Of this candidate.
    fn note(&mut self, candidates: &Candidates, clause: &[Lit]) -> Result<(), OutOfMemory>
        ensures { OnOk result (self.new.rest.items ≡ rest_of candidates.now clause.now) }
    {
        self.rest.clear();
        for l in clause {
            if candidates.is_left(*l) {
                self.rest.push(*l)?;
            }
        }
        Ok(())
    }

    /// Whether some has, and the clause has all that is left of it. The set is filled with the
    /// clause where that is looked up.
    fn is_within(&self, clause: &[Lit], looked_at: &mut LiteralSet) -> Result<bool, OutOfMemory>
        ensures { IfOk result (λ is_within. is_within ≡ true →
            IsWithin self.now.rest.items clause.now) }
    {
        let Some(first) = self.rest.first() else {
            return Ok(false);
        };
        if !clause.contains(first) {
            return Ok(false);
        }
        looked_at.fill(clause)?;
        Ok(self.rest.iter().all(|l| looked_at.has(*l)))
    }
}

/// Whether no clause has the complement of one of the literals.
fn none_touched<P: Propagate>(clauses: &P, lits: &[Lit]) -> bool
    ensures { result ≡ true → (l : Literal) → IsTrue (has lits.now l) → (s : ℕ) →
        ¬ HasAt (maps.get (P.state clauses.now).live) (complement l) s }
{
    for l in lits {
        if clauses.count_with(l.neg()) > 0 {
            return false;
        }
    }
    true
}

impl Candidates<'_> {
    /// Whether the clause is one of them.
    fn includes(&self, clause: &[Lit]) -> bool
        ensures { result ≡ is_candidate self.now clause.now }
    {
        match *self {
            Candidates::Holding(l) => clause.contains(&l),
            Candidates::ReducedBy(witness) => witness.reduces(clause),
        }
    }

    /// Whether the literal, if one of them has it, is left of it.
    fn is_left(&self, l: Lit) -> bool
        ensures { result ≡ is_left self.now l }
    {
        match *self {
            Candidates::Holding(held) => l != held,
            Candidates::ReducedBy(witness) => !witness.has(l.neg()),
        }
    }

    /// Assumes false what is left of one, beside what is assumed, and propagates.
    fn assume_left<P: Propagate>(&self, clauses: &mut P, slot: Slot) -> Result<Answer, OutOfMemory>
        requires may { MayAssume (P.state clauses.old).assumptions }
        requires alive { IsSome (maps.get (P.state clauses.old).live slot) }
        ensures { AssumingPart (P.state clauses.old) (P.state clauses.new) slot
            (is_left self.now) result }
    {
        match *self {
            Candidates::Holding(l) => clauses.assume_rest(slot, l),
            Candidates::ReducedBy(witness) => clauses.assume_reduced(slot, witness),
        }
    }

    /// What propagation says where the rest of one is assumed false too, for that moment.
    fn answer_with<P: Propagate>(&self, clauses: &mut P, slot: Slot) -> Result<Answer, OutOfMemory>
        requires { CanTry (P.state clauses.old) slot }
        ensures answer { IfOk result (λ a. (c : Clause) →
            maps.get (P.state clauses.old).live slot ≡ Some c →
            IsAnswer (maps.get (P.state clauses.old).live) (assumed_by
            (P.state clauses.old).assumptions ++ complements (rest_of self.now c)) a) }
        ensures same { IsAsBefore (P.state clauses.old) (P.state clauses.new) }
    {
        let answer = self.assume_left(clauses, slot)?;
        clauses.undo();
        Ok(answer)
    }

    /// Whether a literal that is left of the clause is true already, so that its rest clashes with
    /// what is assumed. It takes no memory.
    fn clashes_at_once<P: Propagate>(&self, clauses: &P, clause: &[Lit]) -> bool
        requires { LastIsAnswered Quiet (P.state clauses.now).assumptions }
        ensures { result ≡ true → Clash (maps.get (P.state clauses.now).live)
            (assumed_by (P.state clauses.now).assumptions
            ++ complements (rest_of self.now clause.now)) }
    {
        for l in clause {
            if matches!(clauses.value(*l), Value::True) && self.is_left(*l) {
                return true;
            }
        }
        false
    }

    /// Whether the clause in the slot is none of them, or clashes with what is assumed.
    fn passes<P: Propagate>(
        &self,
        clauses: &mut P,
        slot: Slot,
        last: &mut Clashed,
        looked_at: &mut LiteralSet,
    ) -> Result<bool, OutOfMemory>
        requires can_try { CanTry (P.state clauses.old) slot }
        requires clashed { HasClashed (P.state clauses.old) self.now last.old }
        ensures passes { IfOk result (PassesIn (P.state clauses.old) self.now slot) }
        ensures clashed { OnOk result (HasClashed (P.state clauses.old) self.now last.new) }
        ensures same { IsAsBefore (P.state clauses.old) (P.state clauses.new) }
    {
        let clause = clauses.clause(slot);
        if self.clashes_at_once(clauses, clause) {
            return Ok(true);
        }
        if !self.includes(clause) || last.is_within(clause, looked_at)? {
            return Ok(true);
        }
        match self.answer_with(clauses, slot)? {
            Answer::Clash => {
                last.note(self, clauses.clause(slot))?;
                Ok(true)
            }
            Answer::Quiet => Ok(false),
        }
    }

    /// Whether each of them clashes with what is assumed, where the literals touch all that can be
    /// one. It is open what `slots`, `last` and `looked_at` have then.
    #[tactic(auto, using(crate::proofs::DratLemmas::Candidates::walk_steps))]
    pub(crate) fn all_clash<P: Propagate>(
        &self,
        clauses: &mut P,
        lits: &[Lit],
        slots: &mut Vec<u32>,
        last: &mut Clashed,
        looked_at: &mut LiteralSet,
    ) -> Result<bool, OutOfMemory>
        requires room { MayAssume (P.state clauses.old).assumptions }
        requires quiet { LastIsAnswered Quiet (P.state clauses.old).assumptions }
        requires touched { (c : Clause) → IsTrue (is_candidate self.now c) →
            IsTrue (list_any (λ l. has c (complement l)) lits.now) }
        ensures searched { IfOk result (SearchedIn (P.state clauses.old) self.now) }
        ensures same { IsAsBefore (P.state clauses.old) (P.state clauses.new) }
    {
        if none_touched(clauses, lits) {
            return Ok(true);
        }
        clauses.touched(lits, slots)?;
        last.clear();
        for slot in slots.as_slice() {
            if !self.passes(clauses, Slot::at(*slot as usize), last, looked_at)? {
                return Ok(false);
            }
        }
        Ok(true)
    }
}
