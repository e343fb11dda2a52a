//! The clauses of one literal and of none.

ghost use Rattle.std.specs.Prelude.{◌≡◌, ℕ, ◌∷◌, [], Some, IsTrue, IfSome, IfNone};
ghost use Rattle.std.specs.FinMap as maps;
ghost use Rattle.tables.specs.ByKey.{at};
ghost use Rattle.root_literals.specs.Order.{each_in_order};
ghost use Rattle.root_literals.specs.Roots.{HaveUnits, IsFalseAt};
ghost use Rattle.watch_lists.specs.Watched.{IsUnitList, is_unit_or_empty};
ghost use Rattle.root_literals.specs.Code.Propagated.{CanSet, PropagatesTo};

use crate::roots::set_by;
use clause_db::{Slot, Store};
use cnf_base::Lit;
use propagation::Assumptions;
use tables::ByKey;

/// The literal of a clause that has one or none.
fn literal_of(clause: &[Lit]) -> Option<Lit>
    requires { IsTrue (is_unit_or_empty clause.now) }
    ensures one { IfSome result (λ l. clause.now ≡ l ∷ []) }
    ensures none { IfNone result (clause.now ≡ []) }
{
    clause.first().copied()
}

/// Makes the literals of the clauses in these slots true, each of which has one or none, up to one
/// that is false: its slot.
#[tactic(auto, using(crate::proofs::RootLemmas::Carried::clashes))]
pub(crate) fn set_units(
    store: &Store,
    slots: &[u32],
    assumptions: &mut Assumptions,
    reasons: &mut ByKey<u32>,
) -> Option<u32>
    requires listed { IsUnitList (maps.get store.now.live) slots.now }
    requires can { CanSet store.now.live assumptions.old (at reasons.old) }
    ensures conflict { IfSome result (λ s.
        IsFalseAt (maps.get (each_in_order store.now.live)) s assumptions.new.trail.lits) }
    ensures units { IfNone result
        (HaveUnits (maps.get store.now.live) assumptions.new.trail.lits) }
    ensures propagates { PropagatesTo store.now.live store.now.live assumptions.old assumptions.new
        (at reasons.old) (at reasons.new) }
{
    for place in 0..slots.len() {
        let slot = slots[place];
        let clause = store.clause(Slot::at(slot as usize));
        let Some(l) = literal_of(clause) else {
            return Some(slot);
        };
        if assumptions.trail().is_false(l) {
            return Some(slot);
        }
        set_by(assumptions, reasons, l, slot);
    }
    None
}
