//! Which two literals a clause watches at first.

ghost use Rattle.std.specs.Prelude.{◌≡◌, ◌≢◌, ℕ, Some, IsSome};
ghost use Rattle.std.specs.FinMap as maps;
ghost use Rattle.cnf_base.specs.Literals.{Clause, Literal, has};
ghost use Rattle.clause_db.specs.Store.{is_tautology, literals_in};
ghost use Rattle.root_literals.specs.Roots.{IsArranged, IsBrought};

use clause_db::{Slot, Store};
use trail::{Left, Trail};

/// A clause with literals that are not false first.
#[derive(Clone, Copy)]
pub struct Arranged {
    /// What is left of it.
    pub left: Left,
    /// Whether it has a literal and its complement.
    pub has_complements: bool,
}

/// Brings a literal that is not false to this place, if there is one from it on. Tells whether
/// there is.
fn bring(store: &mut Store, trail: &Trail, slot: Slot, place: usize) -> bool
    requires alive { IsSome (maps.get store.old.live slot) }
    ensures others { (s : ℕ) → s ≢ slot →
        maps.get store.new.live s ≡ maps.get store.old.live s }
    ensures brought { (c : Clause) → maps.get store.old.live slot ≡ Some c → (d : Clause) ×
        (maps.get store.new.live slot ≡ Some d) × IsBrought trail.now.lits c d place result }
    ensures slots { store.new.slots ≡ store.old.slots }
{
    match trail.first_non_false(store.clause(slot), place) {
        Some(found) => {
            store.swap(slot, place, found);
            true
        }
        None => false,
    }
}

/// Puts literals of a clause that are not false first, two if there are, and tells what is left of
/// it. Where nothing is true, as while most formulas are read, no literal is looked up.
#[tactic(auto, using(crate::proofs::RootLemmas::Steps::arranged_steps))]
fn put_non_false_first(store: &mut Store, trail: &Trail, slot: Slot) -> Left
    requires alive { IsSome (maps.get store.old.live slot) }
    ensures others { (s : ℕ) → s ≢ slot →
        maps.get store.new.live s ≡ maps.get store.old.live s }
    ensures arranged { (c : Clause) → maps.get store.old.live slot ≡ Some c → (d : Clause) ×
        (maps.get store.new.live slot ≡ Some d) × ((l : Literal) → has d l ≡ has c l)
        × IsArranged trail.now.lits d result }
    ensures live_alone { store.new.stored ≡ literals_in store.new.live }
    ensures slots { store.new.slots ≡ store.old.slots }
{
    if trail.is_empty() && store.clause(slot).len() > 1 {
        store.recall_invariant();
        return Left::More;
    }
    if !bring(store, trail, slot, 0) {
        store.recall_invariant();
        return Left::Nothing;
    }
    let is_more = bring(store, trail, slot, 1);
    store.recall_invariant();
    if is_more {
        Left::More
    } else {
        Left::One(store.clause(slot)[0])
    }
}

/// Puts literals of a clause that are not false first, two if there are, and tells what is left of
/// it and whether it is a tautology. It takes no memory.
pub fn arrange(store: &mut Store, trail: &Trail, slot: Slot) -> Arranged
    requires alive { IsSome (maps.get store.old.live slot) }
    ensures others { (s : ℕ) → s ≢ slot →
        maps.get store.new.live s ≡ maps.get store.old.live s }
    ensures arranged { (c : Clause) → maps.get store.old.live slot ≡ Some c → (d : Clause) ×
        (maps.get store.new.live slot ≡ Some d) × ((l : Literal) → has d l ≡ has c l)
        × IsArranged trail.now.lits d result.left }
    ensures complements { (c : Clause) → maps.get store.new.live slot ≡ Some c →
        result.has_complements ≡ is_tautology c }
    ensures live_alone { store.new.stored ≡ literals_in store.new.live }
    ensures slots { store.new.slots ≡ store.old.slots }
{
    let left = put_non_false_first(store, trail, slot);
    let has_complements = store.is_tautology(slot);
    Arranged {
        left,
        has_complements,
    }
}
