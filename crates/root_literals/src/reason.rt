//! Whether a clause is the reason clause of a root-level literal, past a conflict too.

ghost use Rattle.std.specs.Prelude.{◌≡◌, [], true, false, Some, IsSome, IfOk};
ghost use Rattle.std.specs.FinMap as maps;
ghost use Rattle.cnf_base.specs.Literals.{Clause};
ghost use Rattle.propagation.specs.Closure.{IsClosure};
ghost use Rattle.theory.specs.Propagation.{IsRootReason};
ghost use Rattle.root_literals.specs.Order.{each_in_order};
ghost use Rattle.root_literals.specs.Roots.{IsKept, is_up_to_date};

use crate::roots::Roots;
use clause_db::{Slot, Store};
use cnf_base::OutOfMemory;
use propagation::{Assumptions, Closure};

/// Whether the clause in the slot is the reason of a root-level literal: by the literals that are
/// kept, which are all that follows with nothing assumed, or, past a conflict, by the whole least
/// set.
#[tactic(auto, using(crate::proofs::RootLemmas::Steps::closure_steps))]
pub fn is_reason_at_root(
    store: &mut Store,
    closure: &mut Closure,
    assumptions: &Assumptions,
    roots: &Roots,
    slot: Slot,
) -> Result<bool, OutOfMemory>
    requires alive { IsSome (maps.get store.old.live slot) }
    requires nothing_assumed { assumptions.now.assumptions ≡ [] }
    requires kept { IsKept store.old.live roots.now assumptions.now.trail.lits }
    requires up_to_date { is_up_to_date roots.now.kept ≡ true }
    requires closure { IsClosure (maps.get (each_in_order store.old.live)) closure.old }
    ensures yes { IfOk result (λ is_reason. is_reason ≡ true → (c : Clause) →
        maps.get store.old.live slot ≡ Some c → IsRootReason (maps.get store.old.live) c) }
    ensures no { IfOk result (λ is_reason. is_reason ≡ false → (c : Clause) →
        maps.get store.old.live slot ≡ Some c → ¬ IsRootReason (maps.get store.old.live) c) }
    ensures closure { IsClosure (maps.get (each_in_order store.old.live)) closure.new }
    ensures same { store.new ≡ store.old }
{
    if roots.has_conflict() {
        return closure.is_root_reason(store, slot);
    }
    store.recall_invariant();
    let trail = assumptions.trail();
    let _different = trail.len();
    let clause = store.clause(slot);
    Ok(trail.left(clause).is_one_at_most(clause))
}
