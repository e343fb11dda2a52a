//! Visits of clauses that watch a literal which became false.

ghost use Rattle.std.specs.Prelude.{◌≡◌, ℕ, ◌-◌, ◌<◌, ◌≤◌, length, slice_index, Some, IsTrue};
ghost use Rattle.std.specs.FinMap as maps;
ghost use Rattle.cnf_base.specs.Literals.{Clause, complement, has, size};
ghost use Rattle.trail.specs.Trail.{HasNoVariableTwice, HasRoom, HasRoomForAll};
ghost use Rattle.root_literals.specs.Order.{each_in_order};
ghost use Rattle.watch_lists.specs.Watched.{watches};
ghost use Rattle.watch.specs.Code.Visits.{IsEntryOf, IsVisit};

use clause_db::{Slot, Store};
use cnf_base::Lit;
use trail::{Assignment, Value, first_non_false_under};
use watch_lists::Watcher;

/// What a clause watches in place of a literal that became false.
#[derive(Clone, Copy)]
pub(crate) struct Exchange {
    /// A place behind the first two.
    pub(crate) to: usize,
    /// The literal at `to`, which isn't false.
    pub(crate) next: Lit,
    /// The other watched literal.
    pub(crate) other: Lit,
}

/// What is to be done with a clause that watches a literal which became false.
#[derive(Clone, Copy)]
pub(crate) enum Visit {
    /// Nothing: the other watched literal, which is this, is true.
    Stays(Lit),
    /// It watches another literal.
    Moves(Exchange),
    /// All its other literals are false.
    Unit(Lit),
    /// All its literals are false.
    Conflict,
}

/// The other literal that the clause watches.
#[inline(always)]
fn other_watched(clause: &[Lit], l: Lit) -> Lit
    requires { IsTrue (watches clause.now l) }
    ensures long { 2 ≤ length clause.now }
    ensures other { (from : ℕ) × (from < 2) × (slice_index clause.now from ≡ l)
        × (result ≡ slice_index clause.now (1 - from)) }
{
    // Both are read, since which one it is can't be foretold.
    let first = clause[0];
    let second = clause[1];
    if first == l { second } else { first }
}

/// What is to be done with a clause that watches this literal, which is false.
fn look<A: Assignment>(assignment: &A, clause: &[Lit], l: Lit) -> Visit
    requires room { HasRoom (A.trail_of assignment.now).reserved clause.now }
    requires watched { IsTrue (watches clause.now l) }
    requires is_false { IsTrue (has (A.trail_of assignment.now).lits (complement l)) }
    requires different { size clause.now ≡ length clause.now }
    ensures visit { IsVisit (A.trail_of assignment.now).lits clause.now l result }
    ensures different { HasNoVariableTwice (A.trail_of assignment.now).lits }
{
    let other = other_watched(clause, l);
    if matches!(assignment.value_of(other), Value::True) {
        return Visit::Stays(other);
    }
    match first_non_false_under(assignment, clause, 2) {
        Some(to) => Visit::Moves(Exchange {
            to,
            next: clause[to],
            other,
        }),
        // Asked again, since it would be carried through the search for a non-false literal.
        None => match assignment.value_of(other) {
            Value::False => Visit::Conflict,
            _ => Visit::Unit(other),
        },
    }
}

/// What is to be done with the clause of an entry in the list of this literal, which is false. A
/// binary clause isn't looked at: the blocking literal is its other one.
#[inline(always)]
pub(crate) fn look_at<A: Assignment>(store: &Store, assignment: &A, entry: Watcher, l: Lit) -> Visit
    requires room { HasRoomForAll (A.trail_of assignment.now).reserved
        (maps.get (each_in_order store.now.live)) }
    requires entry { IsEntryOf store.now.live entry l }
    requires is_false { IsTrue (has (A.trail_of assignment.now).lits (complement l)) }
    ensures visit { (c : Clause) → maps.get store.now.live entry.slot ≡ Some c →
        IsVisit (A.trail_of assignment.now).lits c l result }
    ensures unrepeated { (c : Clause) → maps.get store.now.live entry.slot ≡ Some c →
        size c ≡ length c }
    ensures different { HasNoVariableTwice (A.trail_of assignment.now).lits }
{
    store.recall_invariant();
    if !entry.is_binary() {
        return look(assignment, store.clause(Slot::at(entry.slot() as usize)), l);
    }
    let other = entry.blocking();
    match assignment.value_of(other) {
        Value::False => Visit::Conflict,
        _ => Visit::Unit(other),
    }
}
