//! The value of each literal: true, false or open.
//!
//! A value is looked up far more often than set. So each literal has its own, written when it or
//! its complement is set or taken back: among near literals a look-up is one load.

ghost use Rattle.std.specs.Prelude.{◌≡◌, ℕ, ◌==◌, if◌then◌else◌, Some, IsSome, OnOk};
ghost use Rattle.cnf_base.specs.Literals.{complement};
ghost use Rattle.tables.specs.ByKey.{HaveRoom, at};
ghost use Rattle.trail.specs.Code.Values.{Opens, known_value};

use crate::value::Value;
use cnf_base::{Lit, OutOfMemory};
use tables::{ByKey, key};

/// Writes the values of a literal and of its complement, which both have one.
#[inline(always)]
pub(crate) fn set_both(values: &mut ByKey<Value>, l: Lit, value: Value, other: Value)
    requires literal { IsSome (at values.old l) }
    requires complement { IsSome (at values.old (complement l)) }
    ensures { (k : ℕ) → at values.new k ≡ (if k == complement l then Some other
        else if k == l then Some value else at values.old k) }
{
    values.set(key(l), value);
    values.set(key(l.neg()), other);
}

/// Makes the literals and their complements open.
#[tactic(auto, using(crate::proofs::TrailLemmas::Values::opens))]
pub(crate) fn open_all(values: &mut ByKey<Value>, lits: &[Lit])
    requires { HaveRoom (at values.old) lits.now }
    ensures { Opens (at values.old) (at values.new) lits.now }
{
    values.set_all(lits, Value::Open);
}

/// Makes room for both literals of a variable, which are open where they had no value.
pub(crate) fn reserve_both(values: &mut ByKey<Value>, l: Lit) -> Result<(), OutOfMemory>
    ensures same { (k : ℕ) → known_value (at values.new k) ≡ known_value (at values.old k) }
    ensures kept { (k : ℕ) → IsSome (at values.old k) → IsSome (at values.new k) }
    ensures room { OnOk result (IsSome (at values.new l)) }
    ensures other { OnOk result (IsSome (at values.new (complement l))) }
{
    values.reserve(key(l), Value::Open)?;
    values.reserve(key(l.neg()), Value::Open)
}
