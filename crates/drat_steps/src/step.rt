//! An addition of a DRAT proof, over any store of clauses that propagates.

ghost use Rattle.std.specs.Prelude.{◌≡◌, ◌∷◌, OnOk, OnErr, slice_get};
ghost use Rattle.std.specs.FinMap as maps;
ghost use Rattle.theory.specs.Drat.{AnswersListed, addition_of, SameLive};
ghost use Rattle.theory.specs.Drat as drat;
ghost use Rattle.drat_steps.specs.Ready.{IsIdle, IsEmptied, MeetsIfListed};
ghost use Rattle.theory.specs.Answers.{UnlessOutOfMemory};

use crate::addition::AdditionChecker;
use cnf_base::{Lit, OutOfMemory};
use proofs::parts_of;
use propagation::Propagate;
use theory::{Accepted, DratRules, Refusal};

/// Adds one copy of the clause.
#[tactic(auto, using(crate::proofs::DratLemmas::Steps::one_more))]
pub fn add_copy<P: Propagate>(clauses: &mut P, lits: &[Lit]) -> Result<(), OutOfMemory>
    requires { IsIdle (P.state clauses.old) }
    ensures live { OnOk result (SameLive (maps.values (P.state clauses.new).live)
        (lits.now ∷ maps.values (P.state clauses.old).live)) }
    ensures idle { IsIdle (P.state clauses.new) }
    ensures refused { OnErr result ((P.state clauses.new).live ≡ (P.state clauses.old).live) }
{
    let _ = clauses.insert(lits)?;
    Ok(())
}

impl<P: Propagate> AdditionChecker<P> {
    /// Judges an addition, and adds the clause where it is accepted. The witness is not added.
    pub fn add(&mut self, lits: &[Lit], witness: &[Lit]) -> Result<Accepted, Refusal>
        requires idle { IsIdle (P.state self.old.clauses) }
        requires meets { MeetsIfListed lits.now witness.now }
        ensures answers { UnlessOutOfMemory result (AnswersListed
            (slice_get (maps.values (P.state self.old.clauses).live)) lits.now witness.now result) }
        ensures live { OnOk result (SameLive (maps.values (P.state self.new.clauses).live)
            (lits.now ∷ maps.values (P.state self.old.clauses).live)) }
        ensures idle { IsIdle (P.state self.new.clauses) }
        ensures emptied { IsEmptied self.new.slots.items self.new.last.rest.items
            self.new.looked_at self.new.witness }
        ensures refused { OnErr result
            ((P.state self.new.clauses).live ≡ (P.state self.old.clauses).live) }
    {
        let word = self.judge(lits, witness)?;
        add_copy(&mut self.clauses, lits)?;
        Ok(word)
    }
}

/// The clause of an addition, and the witness that it lists where the rules have PR.
#[tactic(auto, using(crate::proofs::DratLemmas::Steps::parts_meet))]
pub fn parts_under(rules: DratRules, lits: &[Lit]) -> (&[Lit], &[Lit])
    ensures parts { addition_of rules.pr lits.now ≡ drat.add result.0.now result.1.now }
    ensures meets { MeetsIfListed result.0.now result.1.now }
{
    if rules.pr {
        parts_of(lits)
    } else {
        (lits, &[])
    }
}
