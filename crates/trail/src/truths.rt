//! What is left of clauses, whatever holds the literals that are true.

ghost use Rattle.std.specs.Prelude.{◌≡◌, List};
ghost use Rattle.cnf_base.specs.Literals.{Literal, complement, has};
ghost use Rattle.theory.specs.Propagation.{open_literals};
ghost use Rattle.trail.specs.Left.{how_many};
ghost use Rattle.trail.specs.Code.Left.{with_one};

use crate::left::Left;
use cnf_base::Lit;

/// Literals that are true, of which each can be asked for.
pub trait Truths {
    /// The literals that are true.
    ghost trues: { Self → List Literal };

    /// Whether the complement of the literal is true. It takes no memory.
    fn falsifies(&self, l: Lit) -> bool
        ensures { result ≡ has (trues self.now) (complement l) };
}

/// What is left with one more literal.
fn with_literal(left: Left, l: Lit) -> Left
    ensures { result ≡ with_one left l }
{
    match left {
        Left::Nothing => Left::One(l),
        Left::One(m) => if l == m { left } else { Left::More },
        Left::More => Left::More,
    }
}

/// What is left of a clause. It takes no memory.
pub fn left_of<T: Truths>(truths: &T, clause: &[Lit]) -> Left
    ensures { result ≡ how_many (open_literals (T.trues truths.now) clause.now) }
{
    let mut left = Left::Nothing;
    for l in clause {
        if !truths.falsifies(*l) {
            match with_literal(left, *l) {
                Left::More => return Left::More,
                next => left = next,
            }
        }
    }
    left
}
