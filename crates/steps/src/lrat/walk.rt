//! The walk over hints.

ghost use Rattle.std.specs.Prelude.{◌≡◌, ◌≤◌, ◌<◌, take, length, nat_abs, pos, slice_index_or};
ghost use Rattle.std.specs.Prelude.{IsFalse};
ghost use Rattle.std.specs.Option.{option_copied};
ghost use Rattle.std.specs.FinMap as maps;
ghost use Rattle.theory.specs.Lrat.{chain, units_of};
ghost use Rattle.theory.specs.Sets.{conflicts, SameSet};
ghost use Rattle.theory.specs.Propagation.{open_literals};
ghost use Rattle.trail.specs.Left.{how_many};
ghost use Rattle.trail.specs.Trail.{HasRoom, HasRoomForAll};
ghost use Rattle.steps.specs.Code.Walk.{IsEnd, refusal_at};

use cnf_base::Lit;
use live_clauses::LiveClauses;
use theory::Refusal;
use trail::{Left, Trail};

/// How a walk ends.
#[derive(Clone, Copy, Debug, PartialEq, Eq)]
pub(crate) enum WalkEnd {
    Conflict,
    Open,
    UnknownId(u64),
    NotUnit(u64),
}

/// Why a walk that should end in a conflict is refused.
pub(crate) fn refusal_of(end: WalkEnd, if_open: Refusal) -> Option<Refusal>
    ensures { result ≡ refusal_at if_open end }
{
    match end {
        WalkEnd::Conflict => None,
        WalkEnd::Open => Some(if_open),
        WalkEnd::UnknownId(k) => Some(Refusal::UnknownId(k)),
        WalkEnd::NotUnit(k) => Some(Refusal::NotUnit(k)),
    }
}

/// The clause that the hint at a place names, if it is alive.
#[inline(always)]
fn named_at<'a>(live: &'a LiveClauses, hints: &[i64], place: usize) -> Option<&'a [Lit]>
    ensures { place < length hints.now → option_copied result ≡
        maps.get live.now.live (nat_abs (slice_index_or hints.now place (pos 0))) }
{
    match hints.get(place) {
        Some(hint) => live.get(hint.unsigned_abs()),
        None => None,
    }
}

/// What is left of the clause of a hint.
#[inline(always)]
fn left_of_hint(trues: &Trail, clause: &[Lit]) -> Left
    requires { HasRoom trues.now.reserved clause.now }
    ensures { result ≡ how_many (open_literals trues.now.lits clause.now) }
{
    match trues.dense() {
        Some(dense) => dense.unit_left(clause),
        None => trues.left(clause),
    }
}

/// Walks over the hints before the first negative one, from literals without a conflict, and makes
/// true what each of their clauses gives. It takes no memory: the room was made before.
///
/// Clauses lie far apart in memory, so each is looked up before the looks at the two before it,
/// which go on meanwhile.
#[tactic(auto, using(crate::proofs::LratLemmas::walk_steps))]
pub(crate) fn walk(live: &LiveClauses, trues: &mut Trail, hints: &[i64]) -> WalkEnd
    requires quiet { IsFalse (conflicts trues.old.lits) }
    requires room { HasRoomForAll trues.old.reserved (maps.get live.now.live) }
    ensures end { IsEnd trues.new.lits result (chain (maps.get live.now.live) trues.old.lits
        (units_of hints.now)) }
    ensures quiet { IsFalse (conflicts trues.new.lits) }
    ensures begins { take (length trues.old.lits) trues.new.lits ≡ trues.old.lits }
    ensures longer { length trues.old.lits ≤ length trues.new.lits }
    ensures reserved { SameSet trues.new.reserved trues.old.reserved }
{
    let mut next = named_at(live, hints, 0);
    let mut after = named_at(live, hints, 1);
    for (i, hint) in hints.iter().enumerate() {
        if *hint < 0 {
            return WalkEnd::Open;
        }
        let k = hint.unsigned_abs();
        let Some(clause) = next else {
            return WalkEnd::UnknownId(k);
        };
        next = after;
        after = named_at(live, hints, i + 2);
        match left_of_hint(trues, clause) {
            Left::Nothing => return WalkEnd::Conflict,
            Left::One(l) => {
                trues.make_true(l);
            }
            Left::More => return WalkEnd::NotUnit(k),
        }
    }
    WalkEnd::Open
}
