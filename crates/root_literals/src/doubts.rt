//! Looks at doubtful clauses after a cut: the visits that are kept may have come before them.

ghost use Rattle.std.specs.Prelude.{◌∷◌, [], IsTrue};
ghost use Rattle.cnf_base.specs.Literals.{Literal, complement, has};
ghost use Rattle.tables.specs.ByKey.{at};
ghost use Rattle.root_literals.specs.Watched.{IsMet};
ghost use Rattle.root_literals.specs.Code.Doubts.{IsLooked};
ghost use Rattle.root_literals.specs.Code.Propagated.{CanSet, PropagatesTo};

use crate::roots::set_by;
use clause_db::Store;
use cnf_base::Lit;
use propagation::Assumptions;
use tables::ByKey;
use trail::{Left, Trail};

/// What looks at clauses tell.
#[derive(Clone, Copy)]
pub(crate) enum Looked {
    /// Each watches no literal that was false, or has a true one.
    Settled,
    /// All literals of the clause in this slot are false.
    Conflict(u32),
    /// One watches a literal that is false, and more than one of its literals are not.
    Open,
}

/// Whether the clause has a true literal, or watches none that is false.
fn is_met(trail: &Trail, clause: &[Lit]) -> bool
    ensures { IsTrue result → (l : Literal) → IsTrue (has trail.now.lits (complement l)) →
        IsMet clause.now l trail.now.lits }
{
    for l in clause {
        if trail.is_true(*l) {
            return true;
        }
    }
    clause.len() < 2 || !trail.is_false(clause[0]) && !trail.is_false(clause[1])
}

/// Looks at the clause in the slot, if there is one, and makes its literal true that is left where
/// all others are false. It takes no memory.
#[tactic(auto, using(crate::proofs::RootLemmas::Steps::left_steps))]
fn look(store: &Store, slot: u32, assumptions: &mut Assumptions, reasons: &mut ByKey<u32>) -> Looked
    requires { CanSet store.now.live assumptions.old (at reasons.old) }
    ensures looked { IsLooked store.now.live (slot ∷ []) assumptions.old.trail.lits
        assumptions.new.trail.lits result }
    ensures propagates { PropagatesTo store.now.live store.now.live assumptions.old assumptions.new
        (at reasons.old) (at reasons.new) }
{
    let Some(clause) = store.at(slot as usize) else {
        return Looked::Settled;
    };
    if is_met(assumptions.trail(), clause) {
        return Looked::Settled;
    }
    match assumptions.trail().left(clause) {
        Left::More => Looked::Open,
        Left::Nothing => Looked::Conflict(slot),
        Left::One(l) => {
            set_by(assumptions, reasons, l, slot);
            Looked::Settled
        }
    }
}

/// Looks at the clauses in these slots, up to one that is not settled. It takes no memory.
pub(crate) fn look_at(
    store: &Store,
    slots: &[u32],
    assumptions: &mut Assumptions,
    reasons: &mut ByKey<u32>,
) -> Looked
    requires { CanSet store.now.live assumptions.old (at reasons.old) }
    ensures looked { IsLooked store.now.live slots.now assumptions.old.trail.lits
        assumptions.new.trail.lits result }
    ensures propagates { PropagatesTo store.now.live store.now.live assumptions.old assumptions.new
        (at reasons.old) (at reasons.new) }
{
    for place in 0..slots.len() {
        match look(store, slots[place], assumptions, reasons) {
            Looked::Settled => {}
            Looked::Conflict(slot) => return Looked::Conflict(slot),
            Looked::Open => return Looked::Open,
        }
    }
    Looked::Settled
}
