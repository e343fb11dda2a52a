//! The root-level literals that are kept, each with its reason, the clause that made it true.
//!
//! The removal of a clause that is no reason, nor the clause of a kept conflict, changes nothing.
//! Where a reason is removed, another clause takes its place if there is one by literals before its
//! own: a copy, where it is a unit clause, so that copies may be deleted one after the other. Else
//! the literal goes alone where nothing needs it, and otherwise the kept literals are cut back to
//! it: those before it have reasons of literals before them alone. What still follows is found
//! again at the next assumption. So a deletion costs what was cut, and a look at each unit clause
//! and at each that is doubtful.
//!
//! A unit clause that is added becomes the reason of its literal even where that is true already:
//! solvers add one, and then delete the clauses that it satisfies. A reason stays in the table when
//! its literal is taken back, and says nothing until the next clause that makes it true.

ghost use Rattle.std.specs.Prelude.{◌≡◌, ◌≢◌, ◌<◌, ◌≤◌, ◌/◌, ◌==◌, ◌&&◌, ◌++◌, ◌∷◌, [], not, true};
ghost use Rattle.std.specs.Prelude.{false, length, take, if◌then◌else◌, Some, IsTrue, IsFalse};
ghost use Rattle.std.specs.Prelude.{IsSome, IfSome, IfNone, OnOk};
ghost use Rattle.std.specs.FinMap as maps;
ghost use Rattle.cnf_base.specs.Literals.{Literal, Clause, complement, has};
ghost use Rattle.tables.specs.ByKey.{at};
ghost use Rattle.trail.specs.Trail.{HasRoom};
ghost use Rattle.theory.specs.Sets.{SameSet};
ghost use Rattle.root_literals.specs.History.{IsRewound};
ghost use Rattle.root_literals.specs.Roots.{HasReasons, IsArranged, IsKept, has_conflict};
ghost use Rattle.root_literals.specs.Roots.{is_up_to_date};
ghost use Rattle.root_literals.specs.Uses.{AreCounted, times};
ghost use Rattle.watch_lists.specs.Watched.{AreUnchanged};
ghost use Rattle.trail.specs.declared.left.Left.TheVariants.{More};
ghost use Rattle.root_literals.specs.declared.kept.Kept.TheVariants.{Conflict, WithoutUnits};

use crate::history::History;
use crate::kept::Kept;
use crate::made_true::{is_reason, made_true_by};
use crate::other_reason::{other_reason, other_unit};
use crate::places::{Places, place_of};
use crate::unshared::{is_needed, only_literal, unshared_literal};
use crate::uses::Uses;
use clause_db::{Slot, Store};
use cnf_base::{Lit, OutOfMemory};
use propagation::Assumptions;
use std::alloc::Global;
use tables::{ByKey, key};
use trail::{Left, Trail};
use watch_lists::WatchLists;

/// What is known of the literals that are true with nothing assumed, and of each the clause that
/// makes it true, its reason.
#[derive(Drop)]
pub struct Roots {
    pub kept: Kept,
    /// When they were propagated.
    pub history: History,
    /// By literal the slot of its reason.
    pub reasons: ByKey<u32>,
    /// How many of them have a reason with each literal.
    uses: Uses,
    places: Places,
    /// There is room for the uses and the places of the first so many literals.
    with_room: usize,
}

/// Sets a literal that is not false by the clause in a slot, unless it is true already. Tells
/// whether it was open. It takes no memory.
#[inline(always)]
pub fn set_by(assumptions: &mut Assumptions, reasons: &mut ByKey<u32>, l: Lit, slot: u32) -> bool
    requires reserved { IsTrue (has assumptions.old.trail.reserved (l / 2)) }
    requires not_false { IsFalse (has assumptions.old.trail.lits (complement l)) }
    requires noted { IsSome (at reasons.old l) }
    ensures was_open { result ≡ not (has assumptions.old.trail.lits l) }
    ensures lits { assumptions.new.trail.lits ≡
        (if result then assumptions.old.trail.lits ++ l ∷ [] else assumptions.old.trail.lits) }
    ensures reserved { SameSet assumptions.new.trail.reserved assumptions.old.trail.reserved }
    ensures assumptions { assumptions.new.assumptions ≡ assumptions.old.assumptions }
    ensures starts { assumptions.new.starts ≡ assumptions.old.starts }
    ensures reasons { (k : Literal) → at reasons.new k ≡
        (if result && k == l then Some slot else at reasons.old k) }
{
    let is_open = assumptions.make_true(l);
    if is_open {
        reasons.set(key(l), slot);
    }
    is_open
}

/// Whether a clause of which this is left watches a literal that is false.
fn watches_false(clause: &[Lit], left: &Left) -> bool
    ensures { IsFalse result → left.now ≢ More → length clause.now < 2 }
{
    match left {
        Left::More => false,
        _ => clause.len() > 1,
    }
}

impl Roots {
    /// Nothing is known.
    pub fn new(alloc: Global) -> Self
        ensures kept { result.kept ≡ WithoutUnits }
        ensures visited { result.history.visited.items ≡ [] }
        ensures counted { result.uses.counted ≡ 0 }
    {
        Roots {
            kept: Kept::WithoutUnits,
            history: History::new(alloc),
            reasons: ByKey::new(alloc),
            uses: Uses::new(alloc),
            places: Places::new(alloc),
            with_room: 0,
        }
    }

    /// Whether all literals that are true with nothing assumed are kept, or a conflict of theirs.
    pub fn is_up_to_date(&self) -> bool
        ensures { result ≡ is_up_to_date self.now.kept }
    {
        matches!(self.kept, Kept::All | Kept::Conflict(_))
    }

    /// Whether a clause is known of which all literals are false with nothing assumed.
    pub fn has_conflict(&self) -> bool
        ensures { result ≡ has_conflict self.now.kept }
    {
        matches!(self.kept, Kept::Conflict(_))
    }

    /// Makes room for the reasons of a literal and of its complement.
    #[tactic(auto, using(crate::proofs::RootLemmas::Steps::room_steps))]
    pub fn reserve_variable(&mut self, l: Lit) -> Result<(), OutOfMemory>
        ensures room { OnOk result ((k : Literal) → k / 2 ≡ l / 2 →
            IsSome (at self.new.reasons k)) }
        ensures old { (l : Literal) → IsSome (at self.old.reasons l) →
            at self.new.reasons l ≡ at self.old.reasons l }
        ensures kept { self.new.kept ≡ self.old.kept }
        ensures history { self.new.history ≡ self.old.history }
        ensures counted { self.new.uses.counted ≡ self.old.uses.counted }
        ensures times { (k : Literal) → times self.new.uses k ≡ times self.old.uses k }
    {
        self.reasons.reserve(key(l), 0)?;
        self.reasons.reserve(key(l.neg()), 0)
    }

    /// Makes room for the places of the literals that are true with nothing assumed, and for how
    /// many reasons have them. Most variables never get one, so it isn't made before.
    ///
    /// # Errors
    ///
    /// Where memory runs out. What has no room is found by a longer search.
    pub fn make_room(&mut self, lits: &[Lit]) -> Result<(), OutOfMemory>
        ensures kept { self.new.kept ≡ self.old.kept }
        ensures history { self.new.history ≡ self.old.history }
        ensures reasons { self.new.reasons ≡ self.old.reasons }
        ensures counted { self.new.uses.counted ≡ self.old.uses.counted }
        ensures times { (k : Literal) → times self.new.uses k ≡ times self.old.uses k }
    {
        for place in self.with_room..lits.len() {
            let l = lits[place];
            self.places.reserve(l.var())?;
            self.uses.reserve(l)?;
            self.with_room = place + 1;
        }
        Ok(())
    }

    /// Takes note of a clause that was added, of which this is left and stands first. It does so
    /// where there is no memory too.
    pub fn enter(&mut self, store: &Store, assumptions: &mut Assumptions, slot: Slot, left: Left)
        requires alive { IsSome (maps.get store.now.live slot) }
        requires low { slot < 4294967296 }
        requires kept { IsKept (maps.remove store.now.live slot) self.old
            assumptions.old.trail.lits }
        requires reasons { (c : Clause) → maps.get store.now.live slot ≡ Some c →
            HasReasons c (at self.old.reasons) }
        requires room { (c : Clause) → maps.get store.now.live slot ≡ Some c →
            HasRoom assumptions.old.trail.reserved c }
        requires arranged { (c : Clause) → maps.get store.now.live slot ≡ Some c →
            IsArranged assumptions.old.trail.lits c left }
        ensures kept { IsKept store.now.live self.new assumptions.new.trail.lits }
        ensures noted { (l : Literal) → IsSome (at self.old.reasons l) →
            IsSome (at self.new.reasons l) }
        ensures reserved { SameSet assumptions.new.trail.reserved assumptions.old.trail.reserved }
        ensures assumptions { assumptions.new.assumptions ≡ assumptions.old.assumptions }
        ensures starts { assumptions.new.starts ≡ assumptions.old.starts }
    {
        let clause = store.clause(slot);
        let is_doubtful = watches_false(clause, &left);
        let number = slot.number() as u32;
        self.history
            .enter(is_doubtful, number, assumptions.trail().len());
        if self.has_conflict() {
            return;
        }
        match left {
            Left::More => {}
            Left::Nothing => self.kept = Kept::Conflict(number),
            Left::One(l) => {
                if set_by(assumptions, &mut self.reasons, l, number) {
                    self.kept = self.kept.with_more();
                } else if clause.len() == 1 {
                    self.reasons.set(key(l), number);
                }
            }
        }
    }

    /// From which literal on what is kept rests on the clause in the slot, which has these
    /// literals; none where nothing does.
    fn rests_from(&self, trail: &Trail, clause: &[Lit], slot: usize) -> Option<usize>
        ensures inside { IfSome result (λ place. place ≤ length trail.now.lits) }
        ensures fewer { IfSome result (λ place. has_conflict self.now.kept ≡ false →
            place < length trail.now.lits) }
        ensures conflict { IfNone result (self.now.kept ≢ Conflict slot) }
        ensures reasons { IfNone result ((l : Literal) → IsTrue (has clause.now l) →
            IsTrue (has trail.now.lits l) → at self.now.reasons l ≢ Some slot) }
    {
        match self.kept {
            Kept::Conflict(number) if number as usize == slot => Some(trail.len()),
            _ => {
                let l = made_true_by(&self.reasons, trail, clause, slot)?;
                Some(place_of(trail.lits(), l))
            }
        }
    }

    /// Keeps no more than the first so many literals, where nothing is assumed, and visits that are
    /// as if no others had been true. It takes no memory.
    pub fn cut(&mut self, store: &Store, assumptions: &mut Assumptions, place: usize)
        requires nothing_assumed { assumptions.old.assumptions ≡ [] }
        requires inside { place ≤ length assumptions.old.trail.lits }
        ensures kept { self.new.kept ≡ WithoutUnits }
        ensures history { IsRewound self.old.history self.new.history
            (length assumptions.new.trail.lits) }
        ensures reasons { self.new.reasons ≡ self.old.reasons }
        ensures counted { AreCounted (maps.get store.now.live) (at self.old.reasons)
            assumptions.old.trail.lits self.old.uses →
            AreCounted (maps.get store.now.live) (at self.new.reasons)
            assumptions.new.trail.lits self.new.uses }
        ensures no_more { self.new.uses.counted ≤ length assumptions.new.trail.lits }
        ensures lits { assumptions.new.trail.lits ≡
            take (length assumptions.new.trail.lits) assumptions.old.trail.lits }
        ensures fewer { length assumptions.new.trail.lits ≤ place }
        ensures reserved { SameSet assumptions.new.trail.reserved assumptions.old.trail.reserved }
        ensures assumptions { assumptions.new.assumptions ≡ [] }
        ensures starts { assumptions.new.starts ≡ assumptions.old.starts }
    {
        let left = self.history.rewind(place);
        self.uses
            .cut(store, &self.reasons, assumptions.trail().lits(), left);
        assumptions.cut(left);
        self.places.cut(left);
        self.with_room = self.with_room.min(left);
        self.kept = Kept::WithoutUnits;
    }

    /// Gives the literal of a unit clause another clause of it alone as its reason, where the
    /// clause in the slot is its reason and another one is found. It takes no memory.
    fn take_copy(&mut self, store: &Store, trail: &Trail, slot: Slot)
        requires alive { IsSome (maps.get store.now.live slot) }
        requires kept { IsKept store.now.live self.old trail.now.lits }
        ensures kept { IsKept store.now.live self.new trail.now.lits }
        ensures noted { (l : Literal) → IsSome (at self.old.reasons l) →
            IsSome (at self.new.reasons l) }
    {
        let Some(l) = only_literal(store.clause(slot)) else {
            return;
        };
        let is_true = trail.is_true(l);
        if !is_true || !is_reason(&self.reasons, l, slot.number()) || store.count_with(l) < 2 {
            return;
        }
        let lits = trail.lits();
        self.places.note(lits);
        if let Some(other) = other_unit(store, &self.places, lits, l, slot) {
            self.reasons.set(key(l), other);
        }
    }

    /// Gives the literal that is true by the clause in the slot another reason, where one is found.
    /// It takes no memory.
    fn change_reason(&mut self, store: &Store, lists: &mut WatchLists, trail: &Trail, slot: Slot)
        requires alive { IsSome (maps.get store.now.live slot) }
        requires kept { IsKept store.now.live self.old trail.now.lits }
        ensures kept { IsKept store.now.live self.new trail.now.lits }
        ensures noted { (l : Literal) → IsSome (at self.old.reasons l) →
            IsSome (at self.new.reasons l) }
        ensures lists { AreUnchanged lists.old lists.new }
    {
        let Some(l) = made_true_by(&self.reasons, trail, store.clause(slot), slot.number()) else {
            return;
        };
        if !lists.has_list(l) {
            return;
        }
        let lits = trail.lits();
        self.places.note(lits);
        let Some(place) = self.places.place(lits, l) else {
            return;
        };
        let list = lists.take_out(l);
        let found = other_reason(store, &self.places, &list, lits, l, slot.number());
        lists.put_back(l, list);
        if let Some(other) = found {
            let after = store.clause(Slot::at(other as usize));
            self.uses.exchange(place, store.clause(slot), after);
            self.reasons.set(key(l), other);
        }
    }

    /// Takes back the literal of a clause that is to be removed, and no other, where no other
    /// clause has it and no literal rests on it. Tells whether it is so. It takes no memory.
    fn take_back_alone(&mut self, store: &Store, assumptions: &mut Assumptions, slot: Slot) -> bool
        requires alive { IsSome (maps.get store.now.live slot) }
        requires nothing_assumed { assumptions.old.assumptions ≡ [] }
        requires kept { IsKept store.now.live self.old assumptions.old.trail.lits }
        ensures kept { result ≡ true → IsKept (maps.remove store.now.live slot) self.new
            assumptions.new.trail.lits }
        ensures still_kept { result ≡ false → IsKept store.now.live self.new
            assumptions.old.trail.lits }
        ensures same { result ≡ false → assumptions.new ≡ assumptions.old }
        ensures reasons { self.new.reasons ≡ self.old.reasons }
        ensures reserved { SameSet assumptions.new.trail.reserved assumptions.old.trail.reserved }
        ensures assumptions { assumptions.new.assumptions ≡ [] }
        ensures starts { assumptions.new.starts ≡ assumptions.old.starts }
    {
        let Some(l) = unshared_literal(store, slot) else {
            return false;
        };
        let is_true = assumptions.trail().is_true(l);
        if !is_true || self.has_conflict() || !is_reason(&self.reasons, l, slot.number()) {
            return false;
        }
        let lits = assumptions.trail().lits();
        let place = place_of(lits, l);
        if is_needed(store, &self.reasons, &mut self.uses, lits, place, l) {
            return false;
        }
        self.history.take_out(place);
        self.uses.take_out(place, l);
        self.places.cut(place);
        self.with_room = self.with_room.saturating_sub(1);
        assumptions.take_out(place);
        true
    }

    /// Takes note of a clause that is to be removed: what is kept by it is kept by another clause,
    /// or is cut back to the place from which on it rests on it. It takes no memory.
    pub fn leave(
        &mut self,
        store: &Store,
        lists: &mut WatchLists,
        assumptions: &mut Assumptions,
        slot: Slot,
    )
        requires alive { IsSome (maps.get store.now.live slot) }
        requires nothing_assumed { assumptions.old.assumptions ≡ [] }
        requires kept { IsKept store.now.live self.old assumptions.old.trail.lits }
        ensures kept { IsKept (maps.remove store.now.live slot) self.new
            assumptions.new.trail.lits }
        ensures noted { (l : Literal) → IsSome (at self.old.reasons l) →
            IsSome (at self.new.reasons l) }
        ensures lists { AreUnchanged lists.old lists.new }
        ensures reserved { SameSet assumptions.new.trail.reserved assumptions.old.trail.reserved }
        ensures assumptions { assumptions.new.assumptions ≡ [] }
        ensures starts { assumptions.new.starts ≡ assumptions.old.starts }
    {
        if self.take_back_alone(store, assumptions, slot) {
            return;
        }
        self.take_copy(store, assumptions.trail(), slot);
        self.change_reason(store, lists, assumptions.trail(), slot);
        let clause = store.clause(slot);
        while let Some(place) = self.rests_from(assumptions.trail(), clause, slot.number()) {
            self.cut(store, assumptions, place);
        }
        self.history.leave(slot.number());
    }
}
