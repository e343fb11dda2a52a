//! The candidates of an LRAT addition, in groups or not. They are counted before they are sought.

ghost use Rattle.std.specs.Prelude.{◌≡◌, ◌==◌, ◌||◌, ℕ, Some, [], IfOk, IfNone, IsTrue, IsFalse};
ghost use Rattle.std.specs.List.Sorted.{IsStrictlyIncreasing};
ghost use Rattle.std.specs.FinMap as maps;
ghost use Rattle.cnf_base.specs.Literals.{complement, has};
ghost use Rattle.theory.specs.Lrat.{group_refusal, groups_refusal, units_of, groups_of};
ghost use Rattle.theory.specs.Sets.{conflicts, SameSet};
ghost use Rattle.trail.specs.Trail.{HasRoom, HasRoomForAll};
ghost use Rattle.live_clauses.specs.LiveClauses.{Holds};
ghost use Rattle.steps.specs.Code.Groups.{named_in, needs_group_at, IsGroupEnd, IsFirstLeftOut};
ghost use Rattle.steps.specs.Code.Groups.{is_unnamed};

use crate::lrat::walk::{WalkEnd, refusal_of, walk};
use cnf_base::{Lit, OutOfMemory};
use live_clauses::{IdSet, LiveClauses};
use std::alloc::Global;
use theory::Refusal;
use trail::{Except, Trail};

/// What the tests of a step take memory from, and room that they keep from step to step.
#[derive(Drop)]
pub(crate) struct HintsRoom {
    pub(crate) alloc: Global,
    /// The identifiers of the candidates.
    pub(crate) ids: Vec<u64>,
}

impl HintsRoom {
    /// It takes no memory.
    pub(crate) fn new(alloc: Global) -> Self {
        HintsRoom {
            alloc,
            ids: Vec::new(alloc),
        }
    }
}

/// Walks over a group's hints from where what is left of its candidate is false. The true literals
/// stay as they were.
#[tactic(auto, using(crate::proofs::LratLemmas::walk_steps))]
fn walk_group(
    live: &LiveClauses,
    trues: &mut Trail,
    candidate: &[Lit],
    opposite: Lit,
    hints: &[i64],
) -> WalkEnd
    requires quiet { IsFalse (conflicts trues.old.lits) }
    requires room { HasRoomForAll trues.old.reserved (maps.get live.now.live) }
    requires candidate_room { HasRoom trues.old.reserved candidate.now }
    ensures end { IsGroupEnd (maps.get live.now.live) trues.old.lits candidate.now opposite
        (units_of hints.now) result }
    ensures lits { trues.new.lits ≡ trues.old.lits }
    ensures reserved { SameSet trues.new.reserved trues.old.reserved }
{
    let start = trues.len();
    let end = if trues.make_false(candidate, &Except(opposite)) {
        WalkEnd::Conflict
    } else {
        walk(live, trues, hints)
    };
    trues.undo_to(start);
    end
}

/// Why the group of `-candidate` is refused, where `named` are the candidates before it and `hints`
/// what follows.
fn judge_group(
    live: &LiveClauses,
    trues: &mut Trail,
    pivot: Lit,
    named: &mut IdSet,
    candidate: u64,
    hints: &[i64],
) -> Result<Option<Refusal>, OutOfMemory>
    requires quiet { IsFalse (conflicts trues.old.lits) }
    requires room { HasRoomForAll trues.old.reserved (maps.get live.now.live) }
    ensures refusal { IfOk result (λ refusal. refusal ≡ group_refusal
        (maps.get live.now.live) trues.old.lits pivot named.old
        (record { candidate = candidate; hints = units_of hints.now })
        (maps.get live.now.live candidate)) }
    ensures named { IfOk result (λ refusal. IfNone refusal
        ((k : ℕ) → has named.new k ≡ (has named.old k || (candidate == k)))) }
    ensures holds { IfOk result (λ refusal. IfNone refusal
        (Holds (maps.get live.now.live) (complement pivot) candidate)) }
    ensures lits { trues.new.lits ≡ trues.old.lits }
    ensures reserved { SameSet trues.new.reserved trues.old.reserved }
{
    let Some(clause) = live.get(candidate) else {
        return Ok(Some(Refusal::UnknownId(candidate)));
    };
    let opposite = pivot.neg();
    if !clause.contains(&opposite) {
        return Ok(Some(Refusal::NotCandidate(candidate)));
    }
    if !named.insert(candidate)? {
        return Ok(Some(Refusal::NamedTwice(candidate)));
    }
    let end = walk_group(live, trues, clause, opposite, hints);
    Ok(refusal_of(end, Refusal::GroupWithoutConflict(candidate)))
}

/// Why the first group that is refused is. Where none is, `named` has all candidates of groups.
pub(crate) fn judge_groups(
    live: &LiveClauses,
    trues: &mut Trail,
    pivot: Lit,
    named: &mut IdSet,
    hints: &[i64],
) -> Result<Option<Refusal>, OutOfMemory>
    requires quiet { IsFalse (conflicts trues.old.lits) }
    requires room { HasRoomForAll trues.old.reserved (maps.get live.now.live) }
    requires none_named { named.old ≡ [] }
    ensures refusal { IfOk result (λ refusal. refusal ≡ groups_refusal
        (maps.get live.now.live) trues.old.lits pivot [] (groups_of hints.now)) }
    ensures named { IfOk result (λ refusal.
        IfNone refusal (SameSet named.new (named_in hints.now))) }
    ensures hold { IfOk result (λ refusal. IfNone refusal
        ((k : ℕ) → IsTrue (has named.new k) →
        Holds (maps.get live.now.live) (complement pivot) k)) }
    ensures lits { trues.new.lits ≡ trues.old.lits }
    ensures reserved { SameSet trues.new.reserved trues.old.reserved }
{
    for (i, hint) in hints.iter().enumerate() {
        if *hint < 0 {
            let refusal = judge_group(
                live,
                trues,
                pivot,
                named,
                hint.unsigned_abs(),
                &hints[i + 1..],
            )?;
            if refusal.is_some() {
                return Ok(refusal);
            }
        }
    }
    Ok(None)
}

/// Whether the clause is a candidate that gives no conflict at once. The true literals stay as they
/// were.
fn needs_group(trues: &mut Trail, opposite: Lit, clause: &[Lit]) -> bool
    requires quiet { IsFalse (conflicts trues.old.lits) }
    requires room { HasRoom trues.old.reserved clause.now }
    ensures needs { result ≡ needs_group_at trues.old.lits opposite clause.now }
    ensures lits { trues.new.lits ≡ trues.old.lits }
    ensures reserved { SameSet trues.new.reserved trues.old.reserved }
{
    if !clause.contains(&opposite) {
        return false;
    }
    let start = trues.len();
    let is_settled = trues.make_false(clause, &Except(opposite));
    trues.undo_to(start);
    !is_settled
}

/// Whether the clause is a candidate that no group names and that gives no conflict at once.
fn is_left_out(live: &LiveClauses, trues: &mut Trail, pivot: Lit, named: &IdSet, id: u64) -> bool
    requires quiet { IsFalse (conflicts trues.old.lits) }
    requires room { HasRoomForAll trues.old.reserved (maps.get live.now.live) }
    ensures unnamed { result ≡
        is_unnamed (maps.get live.now.live) trues.old.lits pivot named.now id }
    ensures lits { trues.new.lits ≡ trues.old.lits }
    ensures reserved { SameSet trues.new.reserved trues.old.reserved }
{
    if named.contains(id) {
        return false;
    }
    match live.get(id) {
        Some(clause) => needs_group(trues, pivot.neg(), clause),
        None => false,
    }
}

/// The first of these identifiers whose clause is a candidate that no group names and that gives no
/// conflict at once.
#[tactic(auto, using(crate::proofs::LratLemmas::candidate_steps))]
fn first_unnamed(
    live: &LiveClauses,
    trues: &mut Trail,
    pivot: Lit,
    named: &IdSet,
    ids: &[u64],
) -> Option<u64>
    requires quiet { IsFalse (conflicts trues.old.lits) }
    requires room { HasRoomForAll trues.old.reserved (maps.get live.now.live) }
    requires ascending { IsStrictlyIncreasing ids.now }
    requires all { (k : ℕ) → Holds (maps.get live.now.live) (complement pivot) k →
        IsTrue (has ids.now k) }
    ensures first { IsFirstLeftOut (maps.get live.now.live) trues.old.lits pivot named.now result }
    ensures lits { trues.new.lits ≡ trues.old.lits }
    ensures reserved { SameSet trues.new.reserved trues.old.reserved }
{
    for id in ids {
        if is_left_out(live, trues, pivot, named, *id) {
            return Some(*id);
        }
    }
    None
}

/// The lowest identifier of a candidate that no group names and that gives no conflict at once. The
/// first call takes memory to count the clauses by literal, and each call where some candidate is
/// not named takes some to find the candidates.
#[tactic(auto, using(crate::proofs::LratLemmas::none_left))]
pub(crate) fn first_left_out(
    live: &mut LiveClauses,
    trues: &mut Trail,
    pivot: Lit,
    named: &IdSet,
    ids: &mut Vec<u64>,
) -> Result<Option<u64>, OutOfMemory>
    requires quiet { IsFalse (conflicts trues.old.lits) }
    requires room { HasRoomForAll trues.old.reserved (maps.get live.old.live) }
    requires hold { (k : ℕ) → IsTrue (has named.now k) →
        Holds (maps.get live.old.live) (complement pivot) k }
    ensures first { IfOk result
        (IsFirstLeftOut (maps.get live.old.live) trues.old.lits pivot named.now) }
    ensures lits { trues.new.lits ≡ trues.old.lits }
    ensures reserved { SameSet trues.new.reserved trues.old.reserved }
    ensures same { live.new ≡ live.old }
{
    let holding = live.holding(pivot.neg())?;
    // Each named clause holds the complement, so that no other does where these are as many.
    if holding <= named.len() as u64 {
        return Ok(None);
    }
    live.touched(pivot, ids)?;
    Ok(first_unnamed(live, trues, pivot, named, ids.as_slice()))
}
