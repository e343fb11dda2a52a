//! The literals of unit clauses after a cut, and a look at what is doubtful.

ghost use Rattle.std.specs.Prelude.{◌≡◌, ◌⊎◌, [], false, IsSome, IfSome, IfNone, take};
ghost use Rattle.std.specs.FinMap as maps;
ghost use Rattle.cnf_base.specs.Literals.{Literal};
ghost use Rattle.trail.specs.Trail.{HasRoomForAll};
ghost use Rattle.theory.specs.Sets.{SameSet};
ghost use Rattle.tables.specs.ByKey.{at};
ghost use Rattle.watch_lists.specs.Watched.{IsUnitList};
ghost use Rattle.root_literals.specs.Order.{each_in_order};
ghost use Rattle.root_literals.specs.History.{HasGrown, visits};
ghost use Rattle.root_literals.specs.Roots.{IsFalseAt, IsKept, lacks_units};
ghost use Rattle.root_literals.specs.Watched.{IsWatched};
ghost use Rattle.root_literals.specs.declared.kept.Kept.TheVariants.{WithoutUnits};

use crate::doubts::{Looked, look_at};
use crate::kept::Kept;
use crate::roots::Roots;
use crate::units::set_units;
use clause_db::Store;
use propagation::Assumptions;
use watch_lists::SlotList;

/// Makes sure that the literals that were visited are propagated to the clauses that are doubtful,
/// or forgets all. The slot of a clause of which all literals are false; none where there is none.
/// It takes no memory.
fn settle(store: &Store, assumptions: &mut Assumptions, roots: &mut Roots) -> Option<u32>
    requires nothing_assumed { assumptions.old.assumptions ≡ [] }
    requires room { HasRoomForAll assumptions.old.trail.reserved
        (maps.get (each_in_order store.now.live)) }
    requires kept { IsKept store.now.live roots.old assumptions.old.trail.lits }
    requires cut { roots.old.kept ≡ WithoutUnits }
    ensures kept { IsKept store.now.live roots.new assumptions.new.trail.lits }
    ensures cut { roots.new.kept ≡ WithoutUnits }
    ensures conflict { IfSome result (λ s.
        IsFalseAt (maps.get (each_in_order store.now.live)) s assumptions.new.trail.lits) }
    ensures sure { IfNone result (IsWatched (maps.get store.now.live)
        (take (visits roots.new.history) assumptions.new.trail.lits)
        assumptions.new.trail.lits) }
    ensures begun { (visits roots.new.history ≡ 0) ⊎ HasGrown roots.old.history roots.new.history
        assumptions.old.trail.lits assumptions.new.trail.lits }
    ensures noted { (l : Literal) → IsSome (at roots.old.reasons l) →
        IsSome (at roots.new.reasons l) }
    ensures reserved { SameSet assumptions.new.trail.reserved assumptions.old.trail.reserved }
    ensures assumptions { assumptions.new.assumptions ≡ assumptions.old.assumptions }
    ensures starts { assumptions.new.starts ≡ assumptions.old.starts }
{
    let slots = roots.history.doubts.as_slice();
    match look_at(store, slots, assumptions, &mut roots.reasons) {
        Looked::Settled => None,
        Looked::Conflict(slot) => Some(slot),
        Looked::Open => {
            roots.cut(store, assumptions, 0);
            None
        }
    }
}

/// Keeps the literals of the clauses of one literal too, where some may be missing, and leaves no
/// doubt. It takes no memory.
#[tactic(auto, using(crate::proofs::RootLemmas::Steps::begun_steps))]
pub fn start(store: &Store, units: &SlotList, assumptions: &mut Assumptions, roots: &mut Roots)
    requires listed { IsUnitList (maps.get store.now.live) units.now }
    requires nothing_assumed { assumptions.old.assumptions ≡ [] }
    requires room { HasRoomForAll assumptions.old.trail.reserved
        (maps.get (each_in_order store.now.live)) }
    requires kept { IsKept store.now.live roots.old assumptions.old.trail.lits }
    ensures kept { IsKept store.now.live roots.new assumptions.new.trail.lits }
    ensures known { lacks_units roots.new.kept ≡ false }
    ensures reserved { SameSet assumptions.new.trail.reserved assumptions.old.trail.reserved }
    ensures assumptions { assumptions.new.assumptions ≡ assumptions.old.assumptions }
    ensures starts { assumptions.new.starts ≡ assumptions.old.starts }
    ensures begun { (visits roots.new.history ≡ 0) ⊎ HasGrown roots.old.history roots.new.history
        assumptions.old.trail.lits assumptions.new.trail.lits }
    ensures noted { (l : Literal) → IsSome (at roots.old.reasons l) →
        IsSome (at roots.new.reasons l) }
{
    if let Kept::WithoutUnits = roots.kept {
        if let Some(slot) = settle(store, assumptions, roots) {
            roots.kept = Kept::Conflict(slot);
            return;
        }
        match set_units(store, units.slots(), assumptions, &mut roots.reasons) {
            Some(slot) => roots.kept = Kept::Conflict(slot),
            None => roots.kept = Kept::WithUnits,
        }
    }
}
