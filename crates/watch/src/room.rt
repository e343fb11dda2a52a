//! Room for the variables of a clause.
//!
//! All that is kept of a variable is made room for at once, so one look tells whether there is any.
//! A look at each place by itself would miss the caches as often, and nearly all have room already.

ghost use Rattle.std.specs.Prelude.{◌≡◌, ◌/◌, ℕ, IsTrue, IsSome, OnOk};
ghost use Rattle.cnf_base.specs.Literals.{Literal, has};
ghost use Rattle.tables.specs.ByKey.{at};
ghost use Rattle.trail.specs.Trail.{HasRoom};
ghost use Rattle.watch.specs.Code.State.{AddsRoom, HaveReasons};

use cnf_base::{Lit, OutOfMemory};
use propagation::Assumptions;
use root_literals::Roots;

/// Makes room for a literal, for its complement and for the reasons of both.
///
/// # Errors
///
/// Where memory runs out. A variable that is reserved then has room for the reasons of its
/// literals too.
#[cold]
#[inline(never)]
fn reserve_variable(
    assumptions: &mut Assumptions,
    roots: &mut Roots,
    l: Lit,
) -> Result<(), OutOfMemory>
    requires noted { HaveReasons assumptions.old.trail.reserved (at roots.old.reasons) }
    ensures room { OnOk result (IsTrue (has assumptions.new.trail.reserved (l / 2))) }
    ensures noted { HaveReasons assumptions.new.trail.reserved (at roots.new.reasons) }
    ensures more { AddsRoom assumptions.old assumptions.new roots.old roots.new }
{
    roots.reserve_variable(l)?;
    assumptions.reserve_variable(l)
}

/// Makes room for the variables of the literals.
///
/// # Errors
///
/// Where memory runs out. Those before then have room for all that is kept of them.
pub(crate) fn reserve_room(
    assumptions: &mut Assumptions,
    roots: &mut Roots,
    lits: &[Lit],
) -> Result<(), OutOfMemory>
    requires noted { HaveReasons assumptions.old.trail.reserved (at roots.old.reasons) }
    ensures room { OnOk result (HasRoom assumptions.new.trail.reserved lits.now) }
    ensures noted { HaveReasons assumptions.new.trail.reserved (at roots.new.reasons) }
    ensures more { AddsRoom assumptions.old assumptions.new roots.old roots.new }
{
    for l in lits {
        if !assumptions.trail().has_room(l.var()) {
            reserve_variable(assumptions, roots, *l)?;
        }
    }
    Ok(())
}
