//! Another reason of a literal that is true with nothing assumed: a copy of its unit clause, which
//! the store finds by its hash, or a clause that watches the literal.

ghost use Rattle.std.specs.Prelude.{◌≡◌, ◌≢◌, ◌<◌, ◌∷◌, [], length, take, slice_index, true, Some};
ghost use Rattle.std.specs.Prelude.{IsTrue, IfSome};
ghost use Rattle.std.specs.FinMap as maps;
ghost use Rattle.cnf_base.specs.Literals.{Literal, complement, has};
ghost use Rattle.root_literals.specs.Roots.{IsReasonAt};

use crate::places::Places;
use clause_db::{Slot, Store};
use cnf_base::Lit;
use watch_lists::Watcher;

/// So many entries, and literals of their clauses, are looked at where hardly anything is behind
/// the literal.
const LEAST_EFFORT: usize = 256;

/// Whether a clause has the literal at this place, and all its others are false by literals that
/// stand before it.
fn rests_before(places: &Places, lits: &[Lit], clause: &[Lit], place: usize) -> bool
    requires inside { place < length lits.now }
    ensures member { result ≡ true → IsTrue (has clause.now (slice_index lits.now place)) }
    ensures others { result ≡ true → (k : Literal) → IsTrue (has clause.now k) →
        k ≢ slice_index lits.now place → IsTrue (has (take place lits.now) (complement k)) }
{
    let mut is_member = false;
    for k in clause {
        if *k == lits[place] {
            is_member = true;
        } else if !places.stands_before(lits, k.neg(), place) {
            return false;
        }
    }
    is_member
}

/// The slot of the first of these entries that is of another slot and whose clause makes the
/// literal true by literals that stand before it.
///
/// It looks at few more entries and literals than stand behind that literal: what is sought must
/// not cost more than the cut that it spares.
pub(crate) fn other_reason(
    store: &Store,
    places: &Places,
    list: &[Watcher],
    lits: &[Lit],
    l: Lit,
    slot: usize,
) -> Option<u32>
    ensures other { IfSome result (λ s. s ≢ slot) }
    ensures reason { IfSome result (λ s. IsReasonAt (maps.get store.now.live) s lits.now l) }
{
    let place = places.place(lits, l)?;
    let mut effort = (lits.len() - place).saturating_add(LEAST_EFFORT);
    for entry in list {
        let number = entry.slot() as usize;
        if number != slot && places.stands_before(lits, entry.blocking().neg(), place) {
            let clause = store.at(number)?;
            effort = effort.checked_sub(clause.len())?;
            if rests_before(places, lits, clause, place) {
                return Some(entry.slot());
            }
        }
        effort = effort.checked_sub(1)?;
    }
    None
}

/// The slot of another clause of the literal alone, if there is one and the literal's place is
/// known. It makes the literal true by no other one.
pub(crate) fn other_unit(
    store: &Store,
    places: &Places,
    lits: &[Lit],
    l: Lit,
    slot: Slot,
) -> Option<u32>
    ensures other { IfSome result (λ s. s ≢ slot) }
    ensures unit { IfSome result (λ s. maps.get store.now.live s ≡ Some (l ∷ [])) }
    ensures reason { IfSome result (λ s. IsReasonAt (maps.get store.now.live) s lits.now l) }
{
    let _place = places.place(lits, l)?;
    store.other_unit(l, slot)
}
