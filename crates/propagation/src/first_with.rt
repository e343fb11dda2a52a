//! The first slot from one on whose clause has a literal.

ghost use Rattle.std.specs.Prelude.{◌≡◌, ℕ, ◌≤◌, ◌<◌, true, false, IfSome, IfNone, IsSome};
ghost use Rattle.std.specs.FinMap as maps;
ghost use Rattle.propagation.specs.Assumptions.{HasAt};

use clause_db::{Memory, Slot, Store};
use cnf_base::Lit;

/// Whether there is a clause in the slot with this number, and it has the literal.
#[tactic(auto, using(crate::proofs::PropagationLemmas::HasAt::lack_steps))]
fn has_at<M: Memory>(store: &Store<M>, number: usize, l: Lit) -> bool
    ensures yes { result ≡ true → HasAt (maps.get store.now.live) l number }
    ensures no { result ≡ false → ¬ HasAt (maps.get store.now.live) l number }
{
    match store.at(number) {
        Some(clause) => clause.contains(&l),
        None => false,
    }
}

/// The first slot from this one on whose clause has the literal.
pub(crate) fn first_with<M: Memory>(store: &Store<M>, l: Lit, from: Slot) -> Option<Slot>
    ensures found { IfSome result
        (λ slot. (from ≤ slot) × HasAt (maps.get store.now.live) l slot) }
    ensures passed_over { IfSome result (λ slot. (s : ℕ) → from ≤ s → s < slot →
        ¬ HasAt (maps.get store.now.live) l s) }
    ensures none { IfNone result
        ((s : ℕ) → from ≤ s → ¬ HasAt (maps.get store.now.live) l s) }
    ensures slots { (s : ℕ) → IsSome (maps.get store.now.live s) →
        s ≤ 18446744073709551615 }
{
    for number in from.number()..store.end() {
        if has_at(store, number, l) {
            return Some(Slot::at(number));
        }
    }
    None
}
