//! Where the clause stands of which a part is assumed.

use clause_db::Slot;
use cnf_base::Lit;

/// A clause that is given, or that of a slot.
#[derive(Clone, Copy)]
pub enum ClauseSource<'a> {
    /// These literals.
    Given(&'a [Lit]),
    /// Those of the clause in this slot.
    Stored(Slot),
}
