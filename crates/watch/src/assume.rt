//! An assumption beside what is assumed, and what follows from it.

ghost use Rattle.std.specs.Prelude.{◌≡◌, filter, true, false};
ghost use Rattle.cnf_base.specs.Literals.{complements};
ghost use Rattle.propagation.specs.Assumptions.{IsThere, MayAssume};
ghost use Rattle.propagation.specs.Code.Scan.{AssumesOn};
ghost use Rattle.trail.specs.Trail.{HasRoom};
ghost use Rattle.root_literals.specs.Order.{each_in_order};
ghost use Rattle.root_literals.specs.Roots.{is_up_to_date};
ghost use Rattle.watch.specs.Code.ClauseSource.{clause_of};
ghost use Rattle.watch.specs.Code.State.{IsWatch};

use crate::clause_source::assume_from;
use crate::run::run;
use clause_db::Store;
use cnf_base::OutOfMemory;
use propagation::{Answer, Assumptions, ClauseSource};
use root_literals::Roots;
use trail::Part;
use watch_lists::{SlotList, WatchLists};

/// Assumes the complements of a part of a clause, beside what is assumed, and propagates.
pub(crate) fn assume_part<P: Part>(
    store: &mut Store,
    lists: &mut WatchLists,
    units: &SlotList,
    assumptions: &mut Assumptions,
    roots: &mut Roots,
    source: &ClauseSource<'_>,
    part: &P,
) -> Result<Answer, OutOfMemory>
    requires watch { IsWatch false store.old.live lists.old units.now roots.old assumptions.old }
    requires up_to_date { is_up_to_date roots.old.kept ≡ true }
    requires may { MayAssume assumptions.old.assumptions }
    requires alive { IsThere store.old.live source.now }
    requires room { HasRoom assumptions.old.trail.reserved (clause_of store.old.live source.now) }
    ensures assumed { AssumesOn (each_in_order store.old.live) assumptions.old assumptions.new
        (complements (filter (P.keeps part.now) (clause_of store.old.live source.now))) result }
    ensures watch { IsWatch false store.new.live lists.new units.now roots.new assumptions.new }
    ensures same { each_in_order store.new.live ≡ each_in_order store.old.live }
    ensures slots { store.new.slots ≡ store.old.slots }
{
    let from = assumptions.trail().len();
    if assume_from(store, assumptions, source, part)? {
        return Ok(Answer::Clash);
    }
    if roots.has_conflict() {
        return Ok(Answer::Clash);
    }
    match run(store, lists, assumptions, &mut roots.reasons, from) {
        Ok(answer) => {
            assumptions.answer(answer);
            Ok(answer)
        }
        Err(refused) => {
            assumptions.undo();
            Err(refused)
        }
    }
}
