//! The clauses together in memory, where many that stood between them are gone.

ghost use Rattle.std.specs.Prelude.{◌≡◌, ◌≤◌, [], false, IfOk};
ghost use Rattle.std.specs.FinMap as maps;
ghost use Rattle.theory.specs.Drat.{SameLive};
ghost use Rattle.propagation.specs.Slots.{slots_needed};
ghost use Rattle.root_literals.specs.Order.{each_in_order};

use crate::Watch;
use clause_db::Store;
use cnf_base::OutOfMemory;
use propagation::Propagate;
use std::alloc::Global;

/// The clauses of a store, in slots that follow one another. It fails only where memory is refused.
pub(crate) fn gathered(alloc: Global, seed: u64, store: &Store) -> Result<Watch, OutOfMemory>
    ensures live { IfOk result (λ w. SameLive (maps.values w.propagation.live)
        (maps.values (each_in_order store.now.live))) }
    ensures few_slots { IfOk result (λ w. w.slots ≤ slots_needed w.propagation.live) }
    ensures nothing_assumed { IfOk result (λ w. w.propagation.assumptions ≡ []) }
    ensures refused { IfOk result (λ w. w.propagation.has_refused ≡ false) }
{
    let mut gathered = Watch::seeded(alloc, seed)?;
    for number in 0..store.end() {
        if let Some(clause) = store.at(number) {
            gathered.insert(clause)?;
        }
    }
    Ok(gathered)
}
