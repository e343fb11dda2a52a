//! Parts of clauses: all literals, all but one, or all but those that a set or a list makes false.
//!
//! A part is a test on literals: RUP leaves out none, RAT one, and PR those that a witness makes
//! false. A rule that leaves out others is one more type.

ghost use Rattle.std.specs.Prelude.{◌≡◌, ◌==◌, Bool, not, true};
ghost use Rattle.cnf_base.specs.Literals.{Literal, complement, has};
ghost use Rattle.trail.specs.LiteralSet.{in_set};

use crate::LiteralSet;
use cnf_base::Lit;

/// Which literals of a clause are meant. The others are left out.
pub trait Part {
    /// Whether the literal is meant where a clause has it.
    ghost keeps: { Self → Literal → Bool };

    /// Whether the literal is meant where a clause has it. It takes no memory.
    fn keeps_literal(&self, l: Lit) -> bool
        ensures { result ≡ keeps self.now l };
}

/// All literals of a clause.
#[derive(Clone, Copy, Debug)]
pub struct Whole;

impl Part for Whole {
    ghost keeps = { λ part l. true };

    fn keeps_literal(&self, _: Lit) -> bool {
        true
    }
}

/// All literals of a clause but this one.
#[derive(Clone, Copy, Debug)]
pub struct Except(pub Lit);

impl Part for Except {
    ghost keeps = { λ part l. not (l == part.0) };

    fn keeps_literal(&self, l: Lit) -> bool {
        l != self.0
    }
}

/// All literals of a clause but those whose complement is in the set.
#[derive(Clone, Copy)]
pub struct Unless<'a>(pub &'a LiteralSet);

impl Part for Unless<'_> {
    ghost keeps = { λ part l. not (in_set part.0.now (complement l)) };

    fn keeps_literal(&self, l: Lit) -> bool {
        !self.0.has(l.neg())
    }
}

/// All literals of a clause but those whose complement is listed. A look at each literal costs a
/// walk over the list, and no memory.
#[derive(Clone, Copy)]
pub struct UnlessListed<'a>(pub &'a [Lit]);

impl Part for UnlessListed<'_> {
    ghost keeps = { λ part l. not (has part.0.now (complement l)) };

    fn keeps_literal(&self, l: Lit) -> bool {
        !self.0.contains(&l.neg())
    }
}
