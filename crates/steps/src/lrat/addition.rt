//! The tests of an added clause.

ghost use Rattle.std.specs.Prelude.{◌≡◌, [], IsFalse};
ghost use Rattle.std.specs.FinMap as maps;
ghost use Rattle.cnf_base.specs.Literals.{complements};
ghost use Rattle.theory.specs.Lrat.{chain, groups_refusal, AnswersGroups, AnswersChain, units_of};
ghost use Rattle.theory.specs.Lrat.{groups_of};
ghost use Rattle.theory.specs.Sets.{conflicts, SameSet};
ghost use Rattle.trail.specs.Trail.{HasRoom, HasRoomForAll};
ghost use Rattle.steps.specs.Code.Walk.{IsEnd};
ghost use Rattle.theory.specs.Answers.{UnlessOutOfMemory};

use crate::lrat::candidates::{HintsRoom, first_left_out, judge_groups};
use crate::lrat::walk::{WalkEnd, walk};
use crate::word::word_of;
use cnf_base::Lit;
use live_clauses::{IdSet, LiveClauses};
use theory::{Accepted, Refusal};
use trail::{Trail, Whole};

/// The answer where the unit hints gave no conflict: the groups in their order, and then the
/// candidates without one. Only the set of the candidates that groups name takes memory, and the
/// search for others.
#[tactic(auto, using(crate::proofs::LratLemmas::addition_steps))]
fn judge_rat(
    room: &mut HintsRoom,
    live: &mut LiveClauses,
    trues: &mut Trail,
    pivot: Lit,
    hints: &[i64],
) -> Result<Accepted, Refusal>
    requires quiet { IsFalse (conflicts trues.old.lits) }
    requires room { HasRoomForAll trues.old.reserved (maps.get live.old.live) }
    ensures answer { UnlessOutOfMemory result
        (AnswersGroups (maps.get live.old.live) trues.old.lits pivot (groups_of hints.now)
        (groups_refusal (maps.get live.old.live) trues.old.lits pivot [] (groups_of hints.now))
        result) }
    ensures reserved { SameSet trues.new.reserved trues.old.reserved }
    ensures same { live.new ≡ live.old }
{
    let mut named = IdSet::new(room.alloc);
    match judge_groups(live, trues, pivot, &mut named, hints)? {
        Some(refusal) => Err(refusal),
        None => match first_left_out(live, trues, pivot, &named, &mut room.ids)? {
            Some(id) => Err(Refusal::Unnamed(id)),
            None => Ok(Accepted::Rat),
        },
    }
}

/// Walks over the unit hints from where the clause is false.
fn walk_units(live: &LiveClauses, trues: &mut Trail, clause: &[Lit], hints: &[i64]) -> WalkEnd
    requires none_true { trues.old.lits ≡ [] }
    requires room { HasRoomForAll trues.old.reserved (maps.get live.now.live) }
    requires clause_room { HasRoom trues.old.reserved clause.now }
    ensures end { IsEnd trues.new.lits result (chain (maps.get live.now.live)
        (complements clause.now) (units_of hints.now)) }
    ensures quiet { IsFalse (conflicts trues.new.lits) }
    ensures reserved { SameSet trues.new.reserved trues.old.reserved }
{
    if trues.make_false(clause, &Whole) {
        return WalkEnd::Conflict;
    }
    walk(live, trues, hints)
}

/// The answer to an addition whose identifier is right. It takes memory only where the unit hints
/// give no conflict.
pub(crate) fn judge_addition(
    room: &mut HintsRoom,
    live: &mut LiveClauses,
    trues: &mut Trail,
    clause: &[Lit],
    hints: &[i64],
) -> Result<Accepted, Refusal>
    requires none_true { trues.old.lits ≡ [] }
    requires room { HasRoomForAll trues.old.reserved (maps.get live.old.live) }
    requires clause_room { HasRoom trues.old.reserved clause.now }
    ensures answer { UnlessOutOfMemory result (AnswersChain (maps.get live.old.live) clause.now
        (groups_of hints.now) (chain (maps.get live.old.live) (complements clause.now)
        (units_of hints.now)) result) }
    ensures reserved { SameSet trues.new.reserved trues.old.reserved }
    ensures same { live.new ≡ live.old }
{
    match walk_units(live, trues, clause, hints) {
        WalkEnd::Conflict => Ok(word_of(clause)),
        WalkEnd::UnknownId(k) => Err(Refusal::UnknownId(k)),
        WalkEnd::NotUnit(k) => Err(Refusal::NotUnit(k)),
        WalkEnd::Open => match clause.first() {
            Some(pivot) => judge_rat(room, live, trues, *pivot, hints),
            None => Err(Refusal::NoConflict),
        },
    }
}
