//! A trail of which all values stand in one array.
//!
//! Of a hint's clause mostly one literal is left. At which place can't be foretold, and a branch
//! for each literal would cost more than the look-ups. So `unit_left` counts what is left, and
//! calls `left`, which stops at the second literal, only where more than one is.

ghost use Rattle.std.specs.Prelude.{◌≡◌};
ghost use Rattle.theory.specs.Propagation.{open_literals};
ghost use Rattle.trail.specs.Left.{how_many};
ghost use Rattle.trail.specs.Code.Left.{IsCount};
ghost use Rattle.trail.specs.Code.Values.{HasAll};
ghost use Rattle.trail.specs.Trail.{HasRoom};

use crate::assignment::{Assignment, is_false_under};
use crate::left::Left;
use crate::trail::Trail;
use crate::value::Value;
use cnf_base::Lit;
use std::marker::Model;

/// A trail whose values stand in one array, so that each is looked up without a test.
///
/// Contracts see it as the trail.
#[derive(Drop)]
pub struct Dense<'a> {
    trail: &'a Trail,
    values: &'a [Value],
}

impl<'a> Model for Dense<'a> {
    ghost use Rattle.trail.specs.Trail.{TrailState};
    ghost use Rattle.trail.specs.Code.Values.{HasAll};

    ghost Value = { TrailState };

    // Each field has to be named here. The array has values alone.
    ghost view = { λ record { trail = trail; values = _ }. trail.now };

    ghost invariant = { λ d. HasAll d.trail.now d.values.now };
}

impl Assignment for Dense<'_> {
    ghost trail_of = { λ d. d };

    #[inline(always)]
    fn value_of(&self, l: Lit) -> Value {
        self.values[l.index()]
    }
}

impl<'a> Dense<'a> {
    /// The trail, of which these are all values.
    #[inline(always)]
    pub(crate) fn new(trail: &'a Trail, values: &'a [Value]) -> Self
        requires { HasAll trail.now values.now }
        ensures { result ≡ trail.now }
    {
        Dense { trail, values }
    }
}

impl Dense<'_> {
    /// How many literals of a clause are not false, where each counts as often as it is repeated,
    /// and the last of them.
    #[inline(always)]
    fn count_open(&self, clause: &[Lit]) -> (usize, Lit)
        requires { HasRoom self.now.reserved clause.now }
        ensures { IsCount (open_literals self.now.lits clause.now) result.0 result.1 }
    {
        let mut count = 0;
        let mut last = Lit::default();
        for l in clause {
            if !is_false_under(self, *l) {
                count += 1;
                last = *l;
            }
        }
        (count, last)
    }

    /// What is left of a clause, as [`Trail::left`] says it. It takes no memory.
    ///
    /// It is made for clauses of which at most one literal is left: it looks at all literals, with
    /// no branch for each.
    #[inline]
    pub fn unit_left(&self, clause: &[Lit]) -> Left
        requires { HasRoom self.now.reserved clause.now }
        ensures { result ≡ how_many (open_literals self.now.lits clause.now) }
    {
        match self.count_open(clause) {
            (0, _) => Left::Nothing,
            (1, last) => Left::One(last),
            _ => self.trail.left(clause),
        }
    }
}
