//! Laws of what a run saw of a reader. The functions do nothing: their contracts are the theorems.

ghost use Rattle.cnf_base.specs.Seen.{SeenMayBeGiven, SeenIsSome};

/// What a run saw of a reader is what the reader might give.
#[tactic(auto, using(crate::proofs::SeenLemmas::seen_may_be_given))]
pub fn seen_may_be_given()
    ensures { SeenMayBeGiven }
{}

/// Whatever a run saw, some input is that.
#[tactic(auto, using(crate::proofs::SeenLemmas::seen_is_some))]
pub fn seen_is_some()
    ensures { SeenIsSome }
{}
