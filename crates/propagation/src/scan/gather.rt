//! The clauses together in memory, where many that stood between them are gone.

ghost use Rattle.std.specs.Prelude.{◌≡◌, ◌≤◌, [], false, IfOk};
ghost use Rattle.std.specs.FinMap as maps;
ghost use Rattle.theory.specs.Drat.{SameLive};
ghost use Rattle.propagation.specs.Slots.{slots_needed};

use crate::{Propagate, Scan};
use clause_db::{Slots, Store};
use cnf_base::OutOfMemory;
use std::alloc::Global;

/// The clauses of a store, in slots that follow one another. It fails only where memory is refused.
pub(crate) fn gathered(alloc: Global, store: &Store<Slots>) -> Result<Scan, OutOfMemory>
    ensures live { IfOk result (λ s. SameLive (maps.values s.propagation.live)
        (maps.values store.now.live)) }
    ensures few_slots { IfOk result (λ s. s.slots ≤ slots_needed s.propagation.live) }
    ensures nothing_assumed { IfOk result (λ s. s.propagation.assumptions ≡ []) }
    ensures refused { IfOk result (λ s. s.propagation.has_refused ≡ false) }
{
    let mut gathered = Scan::new(alloc)?;
    for number in 0..store.end() {
        if let Some(clause) = store.at(number) {
            gathered.insert(clause)?;
        }
    }
    Ok(gathered)
}
