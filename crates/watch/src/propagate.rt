//! Propagation of the literals that are assumed and of what follows from them, in an order in which
//! long watch lists wait.

ghost use Rattle.std.specs.Prelude.{◌≡◌, ◌≢◌, ◌+◌, ℕ, ◌≤◌, length, take, Some, IsTrue, IsFalse};
ghost use Rattle.std.specs.Prelude.{IfOk, IfSome, IfNone};
ghost use Rattle.std.specs.FinMap as maps;
ghost use Rattle.cnf_base.specs.Literals.{Clause, Literal, complement, has};
ghost use Rattle.theory.specs.Sets.{conflicts};
ghost use Rattle.root_literals.specs.Order.{each_in_order};
ghost use Rattle.root_literals.specs.Watched.{IsMet, IsWatched};
ghost use Rattle.root_literals.specs.Roots.{IsFalseAt};
ghost use Rattle.watch.specs.Code.Visits.{CanFollow, Followed};
ghost use Rattle.watch_lists.specs.Waiting.{count_of, waits};
ghost use Rattle.tables.specs.ByKey.{at};

use crate::follow::{follow, visit_list};
use clause_db::Store;
use cnf_base::{Lit, OutOfMemory};
use propagation::Assumptions;
use tables::ByKey;
use watch_lists::{Waiting, WatchLists};

/// Visits all clauses that watch a literal which became false, up to one that is false: its slot.
/// Or it lets the literal wait, where its list is long.
#[inline(always)]
fn follow_or_wait(
    store: &mut Store,
    lists: &mut WatchLists,
    assumptions: &mut Assumptions,
    reasons: &mut ByKey<u32>,
    waiting: &mut Waiting,
    l: Lit,
) -> Result<Option<u32>, OutOfMemory>
    requires can { CanFollow store.old.live lists.old assumptions.old (at reasons.old) }
    requires is_false { IsTrue (has assumptions.old.trail.lits (complement l)) }
    ensures conflict { IfOk result (λ found. IfSome found (λ s.
        IsFalseAt (maps.get (each_in_order store.new.live)) s assumptions.new.trail.lits)) }
    ensures met { IfOk result (λ found. IfNone found (IsFalse (waits waiting.new l) →
        (s : ℕ) (c : Clause) → maps.get store.new.live s ≡ Some c →
        IsMet c l assumptions.new.trail.lits)) }
    ensures followed { Followed store.old.live store.new.live lists.old lists.new
        assumptions.old assumptions.new (at reasons.old) (at reasons.new) }
    ensures waiting { (k : Literal) → k ≢ l → waits waiting.new k ≡ waits waiting.old k }
    ensures count { count_of waiting.new ≤ count_of waiting.old + 1 }
    ensures slots { store.new.slots ≡ store.old.slots }
{
    if !lists.has_list(l) {
        return Ok(None);
    }
    let list = lists.take_out(l);
    if waiting.put(l, list.len()) {
        lists.put_back(l, list);
        return Ok(None);
    }
    visit_list(store, lists, assumptions, reasons, l, list)
}

/// Propagates the literals that are true from this place on, up to a clause that is false: its
/// slot.
pub(crate) fn propagate(
    store: &mut Store,
    lists: &mut WatchLists,
    assumptions: &mut Assumptions,
    reasons: &mut ByKey<u32>,
    from: usize,
) -> Result<Option<u32>, OutOfMemory>
    requires from { from ≤ length assumptions.old.trail.lits }
    requires can { CanFollow store.old.live lists.old assumptions.old (at reasons.old) }
    requires watched { IsWatched (maps.get store.old.live)
        (take from assumptions.old.trail.lits) assumptions.old.trail.lits }
    ensures conflict { IfOk result (λ found. IfSome found (λ s.
        IsFalseAt (maps.get (each_in_order store.new.live)) s assumptions.new.trail.lits)) }
    ensures watched { IfOk result (λ found. IfNone found (IsWatched (maps.get store.new.live)
        assumptions.new.trail.lits assumptions.new.trail.lits)) }
    ensures quiet { IfOk result (λ found. IfNone found
        (IsFalse (conflicts assumptions.new.trail.lits))) }
    ensures followed { Followed store.old.live store.new.live lists.old lists.new
        assumptions.old assumptions.new (at reasons.old) (at reasons.new) }
    ensures slots { store.new.slots ≡ store.old.slots }
{
    let mut done = from;
    let mut waiting = Waiting::new();
    loop {
        if done < assumptions.trail().len() {
            let l = assumptions.trail().lits()[done].neg();
            match follow_or_wait(store, lists, assumptions, reasons, &mut waiting, l)? {
                Some(slot) => return Ok(Some(slot)),
                None => done += 1,
            }
        } else {
            let Some(l) = waiting.take() else {
                return Ok(None);
            };
            if let Some(slot) = follow(store, lists, assumptions, reasons, l)? {
                return Ok(Some(slot));
            }
        }
    }
}
