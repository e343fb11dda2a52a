//! One literal: its mark in a store's table.

ghost use Rattle.std.specs.Prelude.{◌≡◌, ℕ, ◌==◌, ◌&&◌, ◌||◌, not, is_some};
ghost use Rattle.std.specs.Prelude.{IsSome, IfOk, OnOk, OnErr};
ghost use Rattle.clause_db.specs.Code.LiteralMarks.{is_marked};
ghost use Rattle.tables.specs.ByKey.{at};

use cnf_base::{Lit, OutOfMemory};
use tables::{ByKey, key};

/// Marks a literal, and tells whether it was not marked before.
pub(crate) fn set_mark(marks: &mut ByKey<bool>, l: Lit) -> bool
    requires { IsSome (at marks.old l) }
    ensures was { result ≡ not (is_marked (at marks.old l)) }
    ensures marked { (k : ℕ) →
        is_marked (at marks.new k) ≡ (k == l || is_marked (at marks.old k)) }
    ensures known { (k : ℕ) → is_some (at marks.new k) ≡ is_some (at marks.old k) }
{
    let was_marked = marks.get_or(key(l), false);
    marks.set(key(l), true);
    !was_marked
}

/// Marks a literal, for which it makes room, and tells whether it was not marked before.
pub(crate) fn add_mark(marks: &mut ByKey<bool>, l: Lit) -> Result<bool, OutOfMemory>
    ensures was { IfOk result (λ is_new. is_new ≡ not (is_marked (at marks.old l))) }
    ensures marked { OnOk result ((k : ℕ) → is_marked (at marks.new k) ≡
        (k == l || is_marked (at marks.old k))) }
    ensures known { OnOk result (IsSome (at marks.new l)) }
    ensures still_known { (k : ℕ) → IsSome (at marks.old k) → IsSome (at marks.new k) }
    ensures err { OnErr result
        ((k : ℕ) → is_marked (at marks.new k) ≡ is_marked (at marks.old k)) }
{
    marks.reserve(key(l), false)?;
    Ok(set_mark(marks, l))
}

/// Takes the mark off a literal, and tells whether it was marked.
pub(crate) fn clear_mark(marks: &mut ByKey<bool>, l: Lit) -> bool
    ensures was { result ≡ is_marked (at marks.old l) }
    ensures marked { (k : ℕ) → is_marked (at marks.new k) ≡
        (not (k == l) && is_marked (at marks.old k)) }
    ensures known { (k : ℕ) → is_some (at marks.new k) ≡ is_some (at marks.old k) }
{
    match marks.get(key(l)) {
        Some(was_marked) => {
            marks.set(key(l), false);
            was_marked
        }
        None => false,
    }
}
