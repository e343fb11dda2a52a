//! Propagation after an assumption.

ghost use Rattle.std.specs.Prelude.{◌≡◌, ◌≤◌, length, take, IfOk};
ghost use Rattle.std.specs.FinMap as maps;
ghost use Rattle.cnf_base.specs.Literals.{has};
ghost use Rattle.tables.specs.ByKey.{at};
ghost use Rattle.propagation.specs.Assumptions.{IsAnswer};
ghost use Rattle.watch.specs.Code.Visits.{CanFollow, Followed};
ghost use Rattle.root_literals.specs.Order.{each_in_order};
ghost use Rattle.root_literals.specs.Roots.{HaveUnits};
ghost use Rattle.root_literals.specs.Watched.{IsWatched};
ghost use Rattle.theory.specs.Propagation.{IsClosed};
ghost use Rattle.propagation.specs.declared.answer.Answer.TheVariants.{Quiet};

use crate::propagate::propagate;
use clause_db::Store;
use cnf_base::OutOfMemory;
use propagation::{Answer, Assumptions};
use tables::ByKey;
use watch_lists::WatchLists;

/// Sets all that follows from the literals that are true, or stops at a conflict. Those before the
/// place `from` are propagated.
pub(crate) fn run(
    store: &mut Store,
    lists: &mut WatchLists,
    assumptions: &mut Assumptions,
    reasons: &mut ByKey<u32>,
    from: usize,
) -> Result<Answer, OutOfMemory>
    requires from { from ≤ length assumptions.old.trail.lits }
    requires can { CanFollow store.old.live lists.old assumptions.old (at reasons.old) }
    requires watched { IsWatched (maps.get store.old.live)
        (take from assumptions.old.trail.lits) assumptions.old.trail.lits }
    requires units { HaveUnits (maps.get store.old.live) assumptions.old.trail.lits }
    ensures answer { IfOk result (λ a. IsAnswer (maps.get (each_in_order store.old.live))
        assumptions.old.trail.lits a) }
    ensures closed { IfOk result (λ a. a ≡ Quiet → IsClosed
        (maps.get (each_in_order store.old.live)) (λ l. has assumptions.new.trail.lits l)) }
    ensures watched { IfOk result (λ a. a ≡ Quiet → IsWatched (maps.get store.new.live)
        assumptions.new.trail.lits assumptions.new.trail.lits) }
    ensures followed { Followed store.old.live store.new.live lists.old lists.new
        assumptions.old assumptions.new (at reasons.old) (at reasons.new) }
    ensures slots { store.new.slots ≡ store.old.slots }
{
    let found = propagate(store, lists, assumptions, reasons, from)?;
    store.recall_invariant();
    match found {
        Some(_) => Ok(Answer::Clash),
        None => Ok(Answer::Quiet),
    }
}
