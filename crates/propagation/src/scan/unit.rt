//! Unit propagation by passes over all clauses.

ghost use Rattle.std.specs.Prelude.{◌≡◌, IsTrue};
ghost use Rattle.std.specs.FinMap as maps;
ghost use Rattle.cnf_base.specs.Literals.{Literal, has};
ghost use Rattle.propagation.specs.Assumptions.{IsAnswer};
ghost use Rattle.propagation.specs.Code.Exact.{Extends};
ghost use Rattle.theory.specs.Propagation.{IsClosed, Forced};
ghost use Rattle.propagation.specs.Code.Passes.{IsPassed};
ghost use Rattle.trail.specs.Trail.{HasRoomForAll};
ghost use Rattle.propagation.specs.declared.answer.Answer.TheVariants.{Quiet};

use crate::Answer;
use crate::assumptions::Assumptions;
use clause_db::{Slots, Store};
use trail::Left;

/// What a pass over all clauses ends in.
#[derive(Clone, Copy)]
enum Pass {
    /// All literals of some clause are false.
    Conflict,
    /// Some literal was set.
    Changed,
    /// Nothing was set.
    Quiet,
}

/// One pass over all clauses, which sets what follows from each.
fn run_pass(store: &Store<Slots>, assumptions: &mut Assumptions) -> Pass
    requires { HasRoomForAll assumptions.old.trail.reserved (maps.get store.now.live) }
    ensures sound { (l : Literal) → IsTrue (has assumptions.new.trail.lits l) →
        Forced (maps.get store.now.live) assumptions.old.trail.lits l }
    ensures pass { IsPassed (maps.get store.now.live)
        assumptions.old.trail assumptions.new.trail.lits result }
    ensures extends { Extends assumptions.old assumptions.new }
{
    let mut found = Pass::Quiet;
    for number in 0..store.end() {
        if let Some(clause) = store.at(number) {
            match assumptions.trail().left(clause) {
                Left::Nothing => return Pass::Conflict,
                Left::One(l) => {
                    if assumptions.make_true(l) {
                        found = Pass::Changed;
                    }
                }
                Left::More => {}
            }
        }
    }
    found
}

/// Sets all that follows from the literals that are true, or stops at a conflict.
pub(crate) fn propagate(store: &Store<Slots>, assumptions: &mut Assumptions) -> Answer
    requires { HasRoomForAll assumptions.old.trail.reserved (maps.get store.now.live) }
    ensures answer { IsAnswer (maps.get store.now.live) assumptions.old.trail.lits result }
    ensures sound { (l : Literal) → IsTrue (has assumptions.new.trail.lits l) →
        Forced (maps.get store.now.live) assumptions.old.trail.lits l }
    ensures closed { result ≡ Quiet → IsClosed (maps.get store.now.live)
        (λ l. has assumptions.new.trail.lits l) }
    ensures extends { Extends assumptions.old assumptions.new }
{
    loop {
        match run_pass(store, assumptions) {
            Pass::Conflict => return Answer::Clash,
            Pass::Changed => {}
            Pass::Quiet => {
                let _different = assumptions.trail().len();
                return Answer::Quiet;
            }
        }
    }
}
