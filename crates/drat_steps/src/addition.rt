//! The answers to additions, with or without a witness, over any store of clauses that propagates.

ghost use Rattle.std.specs.Prelude.{◌≡◌, IsTrue, slice_get};
ghost use Rattle.std.specs.FinMap as maps;
ghost use Rattle.cnf_base.specs.Literals.{Literal, has};
ghost use Rattle.theory.specs.Drat.{AnswersAdd, AnswersListed, AnswersWithWitness};
ghost use Rattle.drat_steps.specs.Ready.{IsIdle, IsEmptied, MeetsIfListed};
ghost use Rattle.drat_steps.specs.Code.Assumed.{IsAssumed, IsAsBefore};
ghost use Rattle.drat_steps.specs.Code.Candidates.{IsListed};
ghost use Rattle.theory.specs.Answers.{UnlessOutOfMemory};

use crate::candidates::{Candidates, Clashed};
use crate::word::word_of;
use cnf_base::Lit;
use propagation::{Answer, Propagate};
use theory::{Accepted, Refusal};
use trail::LiteralSet;

/// Live clauses by which additions are judged, with the room that this needs, which is kept from
/// step to step. Between steps it is empty.
#[derive(Drop)]
pub struct AdditionChecker<P: Propagate> {
    /// The slots of the clauses that are touched.
    slots: Vec<u32>,
    last: Clashed,
    /// The literals of the candidate that is looked at.
    looked_at: LiteralSet,
    /// The witness that is tried.
    witness: LiteralSet,
    pub clauses: P,
}

impl<P: Propagate> AdditionChecker<P> {
    /// With room for nothing yet. It takes no memory.
    pub fn new(clauses: P) -> Self
        ensures clauses { P.state result.clauses ≡ P.state clauses }
        ensures emptied { IsEmptied result.slots.items result.last.rest.items result.looked_at
            result.witness }
    {
        let alloc = clauses.alloc();
        AdditionChecker {
            clauses,
            slots: Vec::new(alloc),
            last: Clashed::new(alloc),
            looked_at: LiteralSet::new(alloc),
            witness: LiteralSet::new(alloc),
        }
    }

    /// The answer to an addition that lists no witness and lacks RUP, where the complements of its
    /// literals are assumed.
    fn judge_rat(&mut self, lits: &[Lit]) -> Result<Accepted, Refusal>
        requires { IsAssumed (P.state self.old.clauses) lits.now }
        ensures answers { UnlessOutOfMemory result
            (AnswersAdd (slice_get (maps.values (P.state self.old.clauses).live)) lits.now result) }
        ensures same { IsAsBefore (P.state self.old.clauses) (P.state self.new.clauses) }
    {
        let Some(pivot) = lits.first() else {
            return Err(Refusal::NotRup);
        };
        let first = [*pivot];
        let candidates = Candidates::Holding(pivot.neg());
        let (slots, last, looked_at) = (&mut self.slots, &mut self.last, &mut self.looked_at);
        match candidates.all_clash(&mut self.clauses, &first, slots, last, looked_at) {
            Ok(true) => Ok(Accepted::Rat),
            Ok(false) => Err(Refusal::NeitherRupNorRat(*pivot)),
            Err(_) => Err(Refusal::OutOfMemory),
        }
    }

    /// The answer to an addition that lists a witness and lacks RUP, where the complements of its
    /// literals are assumed.
    #[tactic(auto, using(crate::proofs::DratLemmas::Steps::touched_if_reduced))]
    fn judge_pr(&mut self, lits: &[Lit], witness: &[Lit]) -> Result<Accepted, Refusal>
        requires assumed { IsAssumed (P.state self.old.clauses) lits.now }
        requires listed { IsListed self.old.witness lits.now witness.now }
        requires meets { (l : Literal) × IsTrue (has lits.now l) × IsTrue (has witness.now l) }
        ensures answers { UnlessOutOfMemory result (AnswersWithWitness
            (slice_get (maps.values (P.state self.old.clauses).live)) lits.now witness.now result) }
        ensures same { IsAsBefore (P.state self.old.clauses) (P.state self.new.clauses) }
    {
        let candidates = Candidates::ReducedBy(&self.witness);
        let (slots, last, looked_at) = (&mut self.slots, &mut self.last, &mut self.looked_at);
        match candidates.all_clash(&mut self.clauses, witness, slots, last, looked_at) {
            Ok(true) => Ok(Accepted::Pr),
            Ok(false) => Err(Refusal::NeitherRupNorPr),
            Err(_) => Err(Refusal::OutOfMemory),
        }
    }

    /// The answer to an addition that lacks RUP, where the complements of its literals are assumed.
    fn judge_without_rup(&mut self, lits: &[Lit], witness: &[Lit]) -> Result<Accepted, Refusal>
        requires assumed { IsAssumed (P.state self.old.clauses) lits.now }
        requires listed { IsListed self.old.witness lits.now witness.now }
        ensures answers { UnlessOutOfMemory result (AnswersListed
            (slice_get (maps.values (P.state self.old.clauses).live)) lits.now witness.now result) }
        ensures same { IsAsBefore (P.state self.old.clauses) (P.state self.new.clauses) }
    {
        if witness.is_empty() {
            self.judge_rat(lits)
        } else {
            self.judge_pr(lits, witness)
        }
    }

    /// The answer to an addition whose witness, if it lists one, is consistent.
    fn judge_consistent(&mut self, lits: &[Lit], witness: &[Lit]) -> Result<Accepted, Refusal>
        requires idle { IsIdle (P.state self.old.clauses) }
        requires listed { IsListed self.old.witness lits.now witness.now }
        ensures answers { UnlessOutOfMemory result (AnswersListed
            (slice_get (maps.values (P.state self.old.clauses).live)) lits.now witness.now result) }
        ensures live { (P.state self.new.clauses).live ≡ (P.state self.old.clauses).live }
        ensures idle { IsIdle (P.state self.new.clauses) }
    {
        match self.clauses.assume(lits) {
            Ok(Answer::Clash) => {
                self.clauses.undo();
                Ok(word_of(lits))
            }
            Ok(Answer::Quiet) => {
                let judged = self.judge_without_rup(lits, witness);
                self.clauses.undo();
                judged
            }
            Err(_) => Err(Refusal::OutOfMemory),
        }
    }

    /// The answer to an addition, whether it lists a witness or not, over the clauses that are
    /// alive before it. What it was found with is emptied again.
    pub(crate) fn judge(&mut self, lits: &[Lit], witness: &[Lit]) -> Result<Accepted, Refusal>
        requires idle { IsIdle (P.state self.old.clauses) }
        requires meets { MeetsIfListed lits.now witness.now }
        ensures answers { UnlessOutOfMemory result (AnswersListed
            (slice_get (maps.values (P.state self.old.clauses).live)) lits.now witness.now result) }
        ensures live { (P.state self.new.clauses).live ≡ (P.state self.old.clauses).live }
        ensures idle { IsIdle (P.state self.new.clauses) }
        ensures emptied { IsEmptied self.new.slots.items self.new.last.rest.items
            self.new.looked_at self.new.witness }
    {
        let answer = match self.witness.fill(witness) {
            Err(_) => Err(Refusal::OutOfMemory),
            Ok(()) if self.witness.falsifies(witness) => Err(Refusal::InconsistentSet),
            Ok(()) => self.judge_consistent(lits, witness),
        };
        self.slots.clear();
        self.last.clear();
        self.looked_at.clear();
        self.witness.clear();
        answer
    }
}
