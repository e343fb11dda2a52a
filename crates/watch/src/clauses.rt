//! The clauses in their slots, with all that follows from them where that is kept.

ghost use Rattle.std.specs.Prelude.{◌≡◌, ◌≢◌, ℕ, ◌+◌, ◌≤◌, Some, None, IsTrue, IsSome, IfOk, OnErr};
ghost use Rattle.std.specs.FinMap as maps;
ghost use Rattle.cnf_base.specs.Literals.{Clause, same_clause, size};
ghost use Rattle.clause_db.specs.Store.{literals_in, slots_for};
ghost use Rattle.propagation.specs.Closure.{IsClosure};
ghost use Rattle.root_literals.specs.Order.{each_in_order};

use clause_db::{Slot, Store};
use cnf_base::{Lit, OutOfMemory};
use propagation::Closure;

/// Stores a clause in a slot that is free, and fails only where memory is refused.
#[tactic(auto, using(crate::proofs::WatchLemmas::State::clause_steps))]
pub(crate) fn insert_clause(
    store: &mut Store,
    closure: &mut Closure,
    lits: &[Lit],
) -> Result<Slot, OutOfMemory>
    requires { IsClosure (maps.get (each_in_order store.old.live)) closure.old }
    ensures free { IfOk result (λ slot. maps.get store.old.live slot ≡ None) }
    ensures stored { IfOk result (λ slot. (c : Clause) ×
        (maps.get store.new.live slot ≡ Some c) × IsTrue (same_clause c lits.now)) }
    ensures others { IfOk result (λ slot. (s : ℕ) → s ≢ slot →
        maps.get store.new.live s ≡ maps.get store.old.live s) }
    ensures err_live { OnErr result (store.new.live ≡ store.old.live) }
    ensures err_stored { OnErr result (store.new.stored ≡ store.old.stored) }
    ensures closure { IsClosure (maps.get (each_in_order store.new.live)) closure.new }
    ensures few_slots { store.new.slots ≤ store.old.slots + slots_for (size lits.now) }
{
    store.recall_invariant();
    let slot = store.insert(lits)?;
    match closure.enter(store, slot) {
        Ok(()) => Ok(slot),
        Err(refused) => {
            remove_clause(store, closure, slot);
            Err(refused)
        }
    }
}

/// Takes the clause out of its slot. It takes no memory.
#[tactic(auto, using(crate::proofs::WatchLemmas::State::clause_steps))]
pub(crate) fn remove_clause(store: &mut Store, closure: &mut Closure, slot: Slot)
    requires alive { IsSome (maps.get store.old.live slot) }
    requires closure { IsClosure (maps.get (each_in_order store.old.live)) closure.old }
    ensures live { store.new.live ≡ maps.remove store.old.live slot }
    ensures live_alone { store.new.stored ≡ literals_in store.new.live }
    ensures closure { IsClosure (maps.get (each_in_order store.new.live)) closure.new }
    ensures slots { store.new.slots ≡ store.old.slots }
{
    closure.leave(store, slot);
    store.remove(slot);
}
