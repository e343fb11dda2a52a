//! What is left of a clause.

ghost use Rattle.std.specs.Prelude.{◌≡◌};
ghost use Rattle.trail.specs.Left.{is_one_at_most};

use cnf_base::Lit;

/// How many different literals of a clause are not false.
#[derive(Clone, Copy, Debug, PartialEq, Eq)]
pub enum Left {
    /// None.
    Nothing,
    /// This one alone.
    One(Lit),
    /// Two or more.
    More,
}

impl Left {
    /// Whether all literals of a clause are false but for one, where this is left of it.
    pub fn is_one_at_most(self, clause: &[Lit]) -> bool
        ensures { result ≡ is_one_at_most self clause.now }
    {
        match self {
            Left::More => false,
            _ => !clause.is_empty(),
        }
    }
}
