//! What follows with nothing assumed, brought up to date.

ghost use Rattle.std.specs.Prelude.{◌≡◌, ◌≤◌, ℕ, true, false, OnOk, length, take};
ghost use Rattle.std.specs.FinMap as maps;
ghost use Rattle.theory.specs.Sets.{SameSet};
ghost use Rattle.root_literals.specs.Order.{each_in_order};
ghost use Rattle.root_literals.specs.History.{sure_of, visits};
ghost use Rattle.root_literals.specs.Roots.{IsKept, lacks_units, is_up_to_date};
ghost use Rattle.root_literals.specs.Watched.{IsWatched};
ghost use Rattle.watch.specs.Code.State.{IsWatch};
ghost use Rattle.watch.specs.Code.Visits.{CanFollow, Followed};
ghost use Rattle.tables.specs.ByKey.{at};

use crate::follow::follow;
use clause_db::Store;
use cnf_base::OutOfMemory;
use propagation::Assumptions;
use root_literals::{Kept, Roots, start};
use watch_lists::{SlotList, WatchLists};

/// Propagates the literals that are kept and were not propagated yet, up to a conflict. It notes
/// how many literals were true when each visit began, and of the first how many were when the ones
/// before were over: a cut goes back to the last one that began with no more than it keeps.
///
/// # Errors
///
/// Where memory runs out. Of what is true then nothing is known.
#[tactic(auto, using(crate::proofs::WatchLemmas::Visits::follow_steps))]
fn catch_up(
    store: &mut Store,
    lists: &mut WatchLists,
    assumptions: &mut Assumptions,
    roots: &mut Roots,
    mut trues: usize,
) -> Result<(), OutOfMemory>
    requires begun { (p : ℕ) → trues ≤ p → p ≤ length assumptions.old.trail.lits →
        IsWatched (sure_of roots.old.history.doubts.items (maps.get store.old.live))
        (take (visits roots.old.history) assumptions.old.trail.lits)
        (take p assumptions.old.trail.lits) }
    requires can { CanFollow store.old.live lists.old assumptions.old (at roots.old.reasons) }
    requires kept { IsKept store.old.live roots.old assumptions.old.trail.lits }
    requires known { lacks_units roots.old.kept ≡ false }
    ensures kept { OnOk result (IsKept store.new.live roots.new assumptions.new.trail.lits) }
    ensures up_to_date { OnOk result (is_up_to_date roots.new.kept ≡ true) }
    ensures followed { Followed store.old.live store.new.live lists.old lists.new assumptions.old
        assumptions.new (at roots.old.reasons) (at roots.new.reasons) }
    ensures slots { store.new.slots ≡ store.old.slots }
{
    let Kept::WithUnits = roots.kept else {
        return Ok(());
    };
    let mut done = roots.history.len();
    while done < assumptions.trail().len() {
        let l = assumptions.trail().lits()[done].neg();
        roots.history.begin(trues.max(done + 1))?;
        match follow(store, lists, assumptions, &mut roots.reasons, l)? {
            Some(slot) => {
                roots.kept = Kept::Conflict(slot);
                return Ok(());
            }
            None => done += 1,
        }
        trues = assumptions.trail().len();
    }
    roots.kept = Kept::All;
    Ok(())
}

/// Brings the literals that are true with nothing assumed up to date.
///
/// # Errors
///
/// Where memory runs out. Nothing is kept then.
pub(crate) fn refresh(
    store: &mut Store,
    lists: &mut WatchLists,
    units: &SlotList,
    assumptions: &mut Assumptions,
    roots: &mut Roots,
) -> Result<(), OutOfMemory>
    requires watch { IsWatch false store.old.live lists.old units.now roots.old assumptions.old }
    ensures watch { IsWatch false store.new.live lists.new units.now roots.new assumptions.new }
    ensures up_to_date { OnOk result (is_up_to_date roots.new.kept ≡ true) }
    ensures same { each_in_order store.new.live ≡ each_in_order store.old.live }
    ensures reserved { SameSet assumptions.new.trail.reserved assumptions.old.trail.reserved }
    ensures assumptions { assumptions.new.assumptions ≡ assumptions.old.assumptions }
    ensures slots { store.new.slots ≡ store.old.slots }
{
    if roots.is_up_to_date() {
        return Ok(());
    }
    let trues = assumptions.trail().len();
    start(store, units, assumptions, roots);
    match catch_up(store, lists, assumptions, roots, trues) {
        Ok(()) => {
            // where this is refused, searches take longer
            let _ = roots.make_room(assumptions.trail().lits());
            Ok(())
        }
        Err(refused) => {
            roots.cut(store, assumptions, 0);
            Err(refused)
        }
    }
}
