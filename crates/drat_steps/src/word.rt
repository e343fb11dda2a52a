//! The word of an addition that propagation shows.

ghost use Rattle.std.specs.Prelude.{[], None};
ghost use Rattle.theory.specs.Lrat.{conflict, AnswersChain};

use cnf_base::Lit;
use theory::Accepted;

/// The word for a clause that propagation shows.
pub fn word_of(clause: &[Lit]) -> Accepted
    ensures { AnswersChain (λ _. None) clause.now [] conflict (Ok result) }
{
    if clause.is_empty() {
        Accepted::Empty
    } else {
        Accepted::Rup
    }
}
