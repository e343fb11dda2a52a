//! Which literals a clause made true, by the table of reasons.

ghost use Rattle.std.specs.Prelude.{◌≡◌, ◌≢◌, Some, IsTrue, IsFalse, IfSome, IfNone};
ghost use Rattle.cnf_base.specs.Literals.{Literal, has};
ghost use Rattle.tables.specs.ByKey.{at};

use cnf_base::Lit;
use tables::{ByKey, key};
use trail::Trail;

/// Whether the clause in the slot is the reason of a literal.
pub(crate) fn is_reason(reasons: &ByKey<u32>, l: Lit, slot: usize) -> bool
    ensures yes { IsTrue result → at reasons.now l ≡ Some slot }
    ensures no { IsFalse result → at reasons.now l ≢ Some slot }
{
    match reasons.get(key(l)) {
        Some(reason) => reason as usize == slot,
        None => false,
    }
}

/// The literal that is true by the clause in the slot, which has these literals.
pub(crate) fn made_true_by(
    reasons: &ByKey<u32>,
    trail: &Trail,
    clause: &[Lit],
    slot: usize,
) -> Option<Lit>
    ensures is_true { IfSome result (λ l. IsTrue (has trail.now.lits l)) }
    ensures reason { IfSome result (λ l. at reasons.now l ≡ Some slot) }
    ensures none { IfNone result ((l : Literal) → IsTrue (has clause.now l) →
        IsTrue (has trail.now.lits l) → at reasons.now l ≢ Some slot) }
{
    for l in clause {
        if trail.is_true(*l) && is_reason(reasons, *l, slot) {
            return Some(*l);
        }
    }
    None
}
