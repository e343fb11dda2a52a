//! A deletion of a DRAT proof, over any store of clauses that propagates.
//!
//! A session tells whether a root-level literal was lost. None is with a clause that isn't the
//! reason of one. With one that is, propagation is asked before the deletion and after it, up to
//! the first deletion that loses one.

ghost use Rattle.std.specs.Prelude.{◌≡◌, ◌⊎◌, ◌↔◌, ◌≤◌, true, false, Some, IsSome, IfSome, IfNone};
ghost use Rattle.std.specs.Prelude.{[], IsTrue, IfOk, OnOk, OnErr};
ghost use Rattle.std.specs.FinMap as maps;
ghost use Rattle.cnf_base.specs.Literals.{Clause, Literal, has, same_clause};
ghost use Rattle.propagation.specs.Assumptions.{LastIsAnswered, assumed_by};
ghost use Rattle.theory.specs.Answers.{UnlessOutOfMemory};
ghost use Rattle.theory.specs.Drat.{AnswersDelete, after_drat, SameLive};
ghost use Rattle.theory.specs.Drat as drat;
ghost use Rattle.theory.specs.Propagation.{Clash, Forced, IsRootReason};
ghost use Rattle.theory.specs.Losses.{DeleteLoses};
ghost use Rattle.drat_steps.specs.Ready.{IsIdle};

use clause_db::Slot;
use cnf_base::{Lit, OutOfMemory};
use propagation::{Answer, Propagate, Value};
use theory::{Accepted, DratRules, Refusal};

/// A literal of the clause in the slot that is true, where there is one.
fn true_literal<P: Propagate>(clauses: &P, slot: Slot) -> Option<Lit>
    requires alive { IsSome (maps.get (P.state clauses.now).live slot) }
    requires quiet { LastIsAnswered Answer.Quiet (P.state clauses.now).assumptions }
    requires no_clash { ¬ Clash (maps.get (P.state clauses.now).live)
        (assumed_by (P.state clauses.now).assumptions) }
    ensures found { IfSome result (λ l. Forced (maps.get (P.state clauses.now).live)
        (assumed_by (P.state clauses.now).assumptions) l) }
    ensures member { IfSome result (λ l. (c : Clause) →
        maps.get (P.state clauses.now).live slot ≡ Some c → IsTrue (has c l)) }
    ensures none { IfNone result ((c : Clause) (l : Literal) →
        maps.get (P.state clauses.now).live slot ≡ Some c → IsTrue (has c l) →
        ¬ Forced (maps.get (P.state clauses.now).live)
        (assumed_by (P.state clauses.now).assumptions) l) }
{
    for l in clauses.clause(slot) {
        if matches!(clauses.value(*l), Value::True) {
            return Some(*l);
        }
    }
    None
}

/// Whether the literal doesn't follow with nothing assumed, where nothing clashes.
fn is_lost<P: Propagate>(clauses: &mut P, l: Lit) -> Result<bool, OutOfMemory>
    requires { IsIdle (P.state clauses.old) }
    ensures yes { IfOk result (λ is_lost. is_lost ≡ true →
        ¬ Forced (maps.get (P.state clauses.old).live) [] l) }
    ensures no { IfOk result (λ is_lost. is_lost ≡ false →
        Forced (maps.get (P.state clauses.old).live) [] l
        ⊎ Clash (maps.get (P.state clauses.old).live) []) }
    ensures live { (P.state clauses.new).live ≡ (P.state clauses.old).live }
    ensures idle { IsIdle (P.state clauses.new) }
{
    let is_lost = match clauses.assume(&[])? {
        Answer::Clash => false,
        Answer::Quiet => !matches!(clauses.value(l), Value::True),
    };
    clauses.undo();
    Ok(is_lost)
}

/// Takes the clause, which is the reason of a root-level literal, out of its slot, and tells
/// whether such a literal is lost with it.
#[tactic(auto, using(crate::proofs::DratLemmas::Losses::fewer_literals))]
fn remove_reason<P: Propagate>(clauses: &mut P, slot: Slot) -> Result<bool, OutOfMemory>
    requires alive { IsSome (maps.get (P.state clauses.old).live slot) }
    requires reason { (c : Clause) → maps.get (P.state clauses.old).live slot ≡ Some c →
        IsRootReason (maps.get (P.state clauses.old).live) c }
    requires idle { IsIdle (P.state clauses.old) }
    ensures live { OnOk result
        ((P.state clauses.new).live ≡ maps.remove (P.state clauses.old).live slot) }
    ensures loses { IfOk result (λ loses. (c lits : Clause) →
        maps.get (P.state clauses.old).live slot ≡ Some c → IsTrue (same_clause c lits) →
        (loses ≡ true) ↔
        DeleteLoses (maps.values (P.state clauses.old).live) lits Accepted.Deleted) }
    ensures idle { IsIdle (P.state clauses.new) }
    ensures refused { OnErr result
        ((P.state clauses.new).stored ≤ (P.state clauses.old).stored) }
{
    if let Answer::Clash = clauses.assume(&[])? {
        clauses.undo();
        clauses.remove(slot);
        return Ok(true);
    }
    let held = true_literal(clauses, slot);
    clauses.undo();
    clauses.remove(slot);
    match held {
        Some(l) => is_lost(clauses, l),
        None => Ok(false),
    }
}

/// Takes one copy of the clause off, unless the rules keep it, and takes note of the first
/// root-level literal that is lost.
#[tactic(auto, using(crate::proofs::DratLemmas::Steps::delete_steps))]
pub fn delete<P: Propagate>(
    clauses: &mut P,
    rules: DratRules,
    lits: &[Lit],
    has_lost_literal: &mut bool,
) -> Result<Accepted, Refusal>
    requires { IsIdle (P.state clauses.old) }
    ensures answers { UnlessOutOfMemory result
        (AnswersDelete rules (maps.values (P.state clauses.old).live) lits.now result) }
    ensures live { IfOk result (λ word. SameLive (maps.values (P.state clauses.new).live)
        (after_drat (maps.values (P.state clauses.old).live) (drat.delete lits.now) word)) }
    ensures idle { IsIdle (P.state clauses.new) }
    ensures lost { IfOk result (λ word. (has_lost_literal.new ≡ true) ↔ ((has_lost_literal.old ≡ true)
        ⊎ DeleteLoses (maps.values (P.state clauses.old).live) lits.now word)) }
    ensures lost_stays { OnErr result (has_lost_literal.new ≡ has_lost_literal.old) }
    ensures refused { OnErr result
        ((P.state clauses.new).stored ≤ (P.state clauses.old).stored) }
{
    let Some(slot) = clauses.find(lits) else {
        return if rules.strict {
            Err(Refusal::NotAlive)
        } else {
            Ok(Accepted::Ignored)
        };
    };
    if rules.keep_units {
        if clauses.is_root_reason(slot)? {
            return Ok(Accepted::Ignored);
        }
        clauses.remove(slot);
        return Ok(Accepted::Deleted);
    }
    if *has_lost_literal {
        clauses.remove(slot);
        return Ok(Accepted::Deleted);
    }
    if !clauses.is_root_reason(slot)? {
        clauses.remove(slot);
        return Ok(Accepted::Deleted);
    }
    *has_lost_literal = remove_reason(clauses, slot)?;
    Ok(Accepted::Deleted)
}
