//! The values of literals, as a loop over many clauses looks them up.
//!
//! Variables come densely numbered, so mostly all values stand in one array. There no look-up need
//! ask whether its literal has a place: such a loop is made for this array, and again for any trail.

ghost use Rattle.std.specs.Prelude.{◌≡◌, IfSome, IfNone, IsTrue};
ghost use Rattle.cnf_base.specs.Literals.{complement, has, variable};
ghost use Rattle.trail.specs.Left.{AreFalseBetween, AreFalseFrom, IsNonFalseAt};
ghost use Rattle.trail.specs.Trail.{HasNoVariableTwice, HasRoom, TrailState, value_under};

use crate::Value;
use cnf_base::Lit;

/// What a trail says of the literals for whose variables it has room.
pub trait Assignment {
    /// The trail.
    ghost trail_of: { Self → TrailState };

    /// What the trail says of a literal. It takes no memory.
    fn value_of(&self, l: Lit) -> Value
        requires { IsTrue (has (trail_of self.now).reserved (variable l)) }
        ensures value { result ≡ value_under (trail_of self.now).lits l }
        ensures different { HasNoVariableTwice (trail_of self.now).lits };
}

/// Whether the literal is true. It takes no memory.
#[inline(always)]
pub fn is_true_under<A: Assignment>(assignment: &A, l: Lit) -> bool
    requires { IsTrue (has (A.trail_of assignment.now).reserved (variable l)) }
    ensures { result ≡ has (A.trail_of assignment.now).lits l }
{
    matches!(assignment.value_of(l), Value::True)
}

/// Whether the literal is false. It takes no memory.
#[inline(always)]
pub fn is_false_under<A: Assignment>(assignment: &A, l: Lit) -> bool
    requires { IsTrue (has (A.trail_of assignment.now).reserved (variable l)) }
    ensures { result ≡ has (A.trail_of assignment.now).lits (complement l) }
{
    matches!(assignment.value_of(l), Value::False)
}

/// The first place of a clause from this one on whose literal is not false. It takes no memory.
///
/// From the end on it would take fewer instructions, and more time: where a clause ends is read
/// from its header, and the branch on the value would wait for that too.
#[inline(always)]
pub fn first_non_false_under<A: Assignment>(
    assignment: &A,
    clause: &[Lit],
    from: usize,
) -> Option<usize>
    requires { HasRoom (A.trail_of assignment.now).reserved clause.now }
    ensures found { IfSome result
        (IsNonFalseAt (A.trail_of assignment.now).lits clause.now from) }
    ensures first { IfSome result (λ place.
        AreFalseBetween (A.trail_of assignment.now).lits clause.now from place) }
    ensures none { IfNone result
        (AreFalseFrom (A.trail_of assignment.now).lits clause.now from) }
{
    for place in from..clause.len() {
        if !is_false_under(assignment, clause[place]) {
            return Some(place);
        }
    }
    None
}
