//! The assumption of a part of a clause, wherever the clause stands, and the room for it.

ghost use Rattle.std.specs.Prelude.{◌≡◌, ℕ, ◌++◌, ◌∷◌, filter, length, take, List, IsTrue, IfOk};
ghost use Rattle.std.specs.Prelude.{IsSome, OnOk, OnErr};
ghost use Rattle.std.specs.Bool.{OnFalse};
ghost use Rattle.cnf_base.specs.Literals.{Literal, complements, has};
ghost use Rattle.propagation.specs.Assumptions.{Assumption, IsThere, MayAssume, assumed_by};
ghost use Rattle.trail.specs.Trail.{HasRoom};
ghost use Rattle.theory.specs.Sets.{SameSet, conflicts};
ghost use Rattle.tables.specs.ByKey.{at};
ghost use Rattle.watch.specs.Code.ClauseSource.{HasRoomGiven, clause_of};
ghost use Rattle.watch.specs.Code.State.{AddsRoom, HaveReasons};
ghost use Rattle.propagation.specs.declared.answer.Answer.TheVariants.{Clash};

use crate::room::reserve_room;
use clause_db::Store;
use cnf_base::OutOfMemory;
use propagation::{Assumptions, ClauseSource};
use root_literals::Roots;
use trail::Part;

/// Makes room for the literals that are given. For those of a slot there is room.
pub(crate) fn reserve_given(
    assumptions: &mut Assumptions,
    roots: &mut Roots,
    source: &ClauseSource<'_>,
) -> Result<(), OutOfMemory>
    requires noted { HaveReasons assumptions.old.trail.reserved (at roots.old.reasons) }
    ensures noted { HaveReasons assumptions.new.trail.reserved (at roots.new.reasons) }
    ensures more { AddsRoom assumptions.old assumptions.new roots.old roots.new }
    ensures room { OnOk result (HasRoomGiven assumptions.new.trail.reserved source.now) }
{
    match *source {
        ClauseSource::Given(lits) => reserve_room(assumptions, roots, lits),
        ClauseSource::Stored(_) => Ok(()),
    }
}

/// One more assumption, by a part of a clause, as [`Assumptions::assume`] makes it. In a call of
/// its own, since inlined there are copies for all parts, and the loop of propagation lies worse.
///
/// # Errors
///
/// As there.
#[inline(never)]
pub(crate) fn assume_from<P: Part>(
    store: &Store,
    assumptions: &mut Assumptions,
    source: &ClauseSource<'_>,
    part: &P,
) -> Result<bool, OutOfMemory>
    requires may { MayAssume assumptions.old.assumptions }
    requires alive { IsThere store.now.live source.now }
    requires room { HasRoom assumptions.old.trail.reserved (clause_of store.now.live source.now) }
    ensures conflict { IfOk result (λ is_conflict. is_conflict ≡ conflicts
        (assumptions.old.trail.lits
        ++ complements (filter (P.keeps part.now) (clause_of store.now.live source.now)))) }
    ensures added { IfOk result (λ is_conflict.
        OnFalse is_conflict (SameSet assumptions.new.trail.lits (assumptions.old.trail.lits
        ++ complements (filter (P.keeps part.now) (clause_of store.now.live source.now))))) }
    ensures assumed { IfOk result (λ is_conflict. (all : List Literal) ×
        (assumptions.new.assumptions ≡
        record { answer = Clash; assumed = all } ∷ assumptions.old.assumptions)
        × OnFalse is_conflict (SameSet all (assumed_by assumptions.old.assumptions
        ++ complements (filter (P.keeps part.now) (clause_of store.now.live source.now))))) }
    ensures starts { OnOk result (assumptions.new.starts ≡
        length assumptions.old.trail.lits ∷ assumptions.old.starts) }
    ensures begins { OnOk result (take (length assumptions.old.trail.lits)
        assumptions.new.trail.lits ≡ assumptions.old.trail.lits) }
    ensures reserved { SameSet assumptions.new.trail.reserved assumptions.old.trail.reserved }
    ensures err { OnErr result (assumptions.new ≡ assumptions.old) }
{
    match *source {
        ClauseSource::Given(lits) => assumptions.assume(lits, part),
        ClauseSource::Stored(slot) => assumptions.assume(store.clause(slot), part),
    }
}
