//! The trait `Propagate`: live clauses in slots, and unit propagation over them.
//!
//! - Assumed literals are known up to their order, and not at all after a clash. So propagation may
//!   stop at the first conflict, and keeps no list of them: they are read off the trail.
//! - A clause is shown as a set, so that its watched literals may be moved.
//! - A refused insertion may leave free slots. So how many there are is told beside `state`.
//! - An assumption that memory was refused to ends all later ones: what it had begun to mark need
//!   not be known, and a session is over then anyhow.
//! - `next_with` takes no memory, and so goes over all slots. Sessions use `touched`.
//! - What is only looked up is asked of `store`, for every propagation by one body. A search marks
//!   literals, and the first call of `touched` notes where each occurs: so both change the store,
//!   which nobody else may.

ghost use Rattle.std.specs.Prelude.{◌≡◌, ◌≢◌, [], ◌+◌, ◌≤◌, ◌<◌, ◌∷◌, ℕ, min, not, true, false, ◌==◌};
ghost use Rattle.std.specs.Prelude.{length, Some, None, List, IsTrue, IsSome, IfSome, IfNone, IfOk};
ghost use Rattle.std.specs.Prelude.{OnOk, OnErr};
ghost use Rattle.std.specs.List.Sorted.{IsStrictlyIncreasing};
ghost use Rattle.std.specs.FinMap as maps;
ghost use Rattle.cnf_base.specs.Literals.{Clause, has, same_clause, complement, complements, size};
ghost use Rattle.clause_db.specs.Store.{IsTouchedAt, copies_with, slots_for};
ghost use Rattle.propagation.specs.Assumptions.{Propagation, Assumption, Assuming, AssumingPart, AssumingFrom};
ghost use Rattle.propagation.specs.Assumptions.{AreSameClauses, HoldsLiveAlone, HasAt, IsThere};
ghost use Rattle.propagation.specs.Assumptions.{IsValue, LastIsAnswered, MayAssume, assumed_by};
ghost use Rattle.propagation.specs.Slots.{most_slots};
ghost use Rattle.theory.specs.Drat.{SameLive};
ghost use Rattle.theory.specs.Propagation.{IsRootReason};
ghost use Rattle.trail.specs.LiteralSet.{in_set};
ghost use Rattle.propagation.specs.declared.answer.Answer.TheVariants.{Quiet};

use crate::first_with::first_with;
use crate::{Answer, ClauseSource};
use clause_db::{Memory, Slot, Store};
use cnf_base::{Lit, OutOfMemory};
use std::alloc::Global;
use trail::{Except, LiteralSet, Part, Unless, UnlessListed, Value, Whole};

/// Live clauses, each in a slot, and unit propagation from literals that are assumed.
///
/// At most two assumptions stand, the second on the first. One that adds no literal stands too.
pub trait Propagate {
    /// The memory that its clauses stand in.
    type Clauses: Memory;

    /// The live clauses, the assumptions that stand, how many literals are kept, and whether an
    /// assumption was refused.
    ghost state: { Self → Propagation };

    /// How many slots its clauses stand in, free ones too.
    ghost slot_count: { Self → ℕ };

    /// The allocator that its memory comes from.
    fn alloc(&self) -> Global;

    /// The store of the live clauses, in which the literals of each may stand in another order. It
    /// takes no memory.
    fn store(&self) -> &Store<Self::Clauses>
        ensures live { AreSameClauses (state self.now).live result.now.live }
        ensures stored { (state self.now).stored ≡ result.now.stored }
        ensures slots { slot_count self.now ≡ result.now.slots }
        ensures live_alone { HoldsLiveAlone (state self.now) };

    /// Stores a clause in a slot that is free, where nothing is assumed. It fails only where memory
    /// is refused.
    fn insert(&mut self, lits: &[Lit]) -> Result<Slot, OutOfMemory>
        requires { (state self.old).assumptions ≡ [] }
        ensures free { IfOk result (λ slot. maps.get (state self.old).live slot ≡ None) }
        ensures stored { IfOk result (λ slot. (c : Clause) ×
            (maps.get (state self.new).live slot ≡ Some c) × IsTrue (same_clause c lits.now)) }
        ensures others { IfOk result (λ slot. (s : ℕ) → s ≢ slot →
            maps.get (state self.new).live s ≡ maps.get (state self.old).live s) }
        ensures nothing_assumed { (state self.new).assumptions ≡ [] }
        ensures live_alone { HoldsLiveAlone (state self.new) }
        ensures refused { (state self.new).has_refused ≡ (state self.old).has_refused }
        ensures err { OnErr result (state self.new ≡ state self.old) }
        ensures few_slots { slot_count self.new ≤
            slot_count self.old + slots_for (size lits.now) };

    /// Takes the clause out of its slot, where nothing is assumed. Other copies of it stay. It
    /// takes no memory.
    fn remove(&mut self, slot: Slot)
        requires alive { IsSome (maps.get (state self.old).live slot) }
        requires nothing_assumed { (state self.old).assumptions ≡ [] }
        ensures live { (state self.new).live ≡ maps.remove (state self.old).live slot }
        ensures live_alone { HoldsLiveAlone (state self.new) }
        ensures nothing_assumed { (state self.new).assumptions ≡ [] }
        ensures refused { (state self.new).has_refused ≡ (state self.old).has_refused }
        ensures same_slots { slot_count self.new ≡ slot_count self.old };

    /// Moves the clauses together where most of the slots that they stand in are free, and nothing
    /// is assumed. Each may have another slot then.
    ///
    /// # Errors
    ///
    /// Where memory runs out. All stays as it was then.
    fn gather(&mut self) -> Result<(), OutOfMemory>
        requires { (state self.old).assumptions ≡ [] }
        ensures live { SameLive (maps.values (state self.new).live)
            (maps.values (state self.old).live) }
        ensures live_alone { HoldsLiveAlone (state self.new) }
        ensures nothing_assumed { (state self.new).assumptions ≡ [] }
        ensures refused { (state self.new).has_refused ≡ (state self.old).has_refused }
        ensures room { OnOk result (slot_count self.new ≤ most_slots (state self.new).live) }
        ensures err { OnErr result (state self.new ≡ state self.old) }
        ensures err_slots { OnErr result (slot_count self.new ≡ slot_count self.old) };

    /// A slot with the same clause as a set, if there is one. It takes no memory.
    fn find(&mut self, lits: &[Lit]) -> Option<Slot>
        ensures found { IfSome result (λ slot. (c : Clause) ×
            (maps.get (state self.old).live slot ≡ Some c) × IsTrue (same_clause c lits.now)) }
        ensures none { IfNone result ((s : ℕ) (c : Clause) →
            maps.get (state self.old).live s ≡ Some c → IsTrue (same_clause c lits.now) →
            ⊥) }
        ensures same { state self.new ≡ state self.old }
        ensures same_slots { slot_count self.new ≡ slot_count self.old };

    /// The slots of the live clauses that the literals touch: that have the complement of one of
    /// them. It costs what these clauses cost, however many others are alive, but for the first
    /// call.
    ///
    /// # Errors
    ///
    /// Where memory runs out. It is open then what `slots` has.
    fn touched(&mut self, lits: &[Lit], slots: &mut Vec<u32>) -> Result<(), OutOfMemory>
        ensures ascending { OnOk result (IsStrictlyIncreasing slots.new.items) }
        ensures each { OnOk result ((s : ℕ) → IsTrue (has slots.new.items s) →
            IsTouchedAt (state self.old).live lits.now s) }
        ensures all { OnOk result ((s : ℕ) → IsTouchedAt (state self.old).live lits.now s →
            IsTrue (has slots.new.items s)) }
        ensures same { state self.new ≡ state self.old }
        ensures same_slots { slot_count self.new ≡ slot_count self.old };

    /// Assumes the complements of a part of a clause, which is given or alive, beside what is
    /// assumed, and propagates.
    ///
    /// # Errors
    ///
    /// Where memory runs out, and ever after. What is assumed is then as it was.
    fn assume_part<P: Part>(
        &mut self,
        source: &ClauseSource<'_>,
        part: &P,
    ) -> Result<Answer, OutOfMemory>
        requires may { MayAssume (state self.old).assumptions }
        requires alive { IsThere (state self.old).live source.now }
        ensures assumed { AssumingFrom (state self.old) (state self.new) source.now
            (P.keeps part.now) result }
        ensures same_slots { slot_count self.new ≡ slot_count self.old };

    /// Whether the clause in the slot is the reason of a root-level literal, where nothing is
    /// assumed: that literal follows, and so do the complements of all its others. It is asked of
    /// the whole least set, past a clash too.
    ///
    /// # Errors
    ///
    /// Where memory runs out, and ever after, as of an assumption.
    fn is_root_reason(&mut self, slot: Slot) -> Result<bool, OutOfMemory>
        requires alive { IsSome (maps.get (state self.old).live slot) }
        requires nothing_assumed { (state self.old).assumptions ≡ [] }
        ensures yes { IfOk result (λ is_reason. is_reason ≡ true → (c : Clause) →
            maps.get (state self.old).live slot ≡ Some c →
            IsRootReason (maps.get (state self.old).live) c) }
        ensures no { IfOk result (λ is_reason. is_reason ≡ false → (c : Clause) →
            maps.get (state self.old).live slot ≡ Some c →
            ¬ IsRootReason (maps.get (state self.old).live) c) }
        ensures live { (state self.new).live ≡ (state self.old).live }
        ensures live_alone { HoldsLiveAlone (state self.new) }
        ensures nothing_assumed { (state self.new).assumptions ≡ [] }
        ensures never_refused { OnOk result ((state self.old).has_refused ≡ false) }
        ensures not_refused { OnOk result ((state self.new).has_refused ≡ false) }
        ensures refused { OnErr result ((state self.new).has_refused ≡ true) }
        ensures same_slots { slot_count self.new ≡ slot_count self.old };

    /// Takes back the last assumption. It takes no memory.
    fn undo(&mut self)
        requires { (last : Assumption) × (rest : List Assumption) ×
            ((state self.old).assumptions ≡ last ∷ rest) }
        ensures assumptions { (last : Assumption) (rest : List Assumption) →
            (state self.old).assumptions ≡ last ∷ rest →
            (state self.new).assumptions ≡ rest }
        ensures live { (state self.new).live ≡ (state self.old).live }
        ensures live_alone { HoldsLiveAlone (state self.new) }
        ensures refused { (state self.new).has_refused ≡ (state self.old).has_refused }
        ensures same_slots { slot_count self.new ≡ slot_count self.old };

    /// What propagation says of a literal, after an assumption that was quiet. It takes no memory.
    fn value(&self, l: Lit) -> Value
        requires { LastIsAnswered Quiet (state self.now).assumptions }
        ensures { IsValue (maps.get (state self.now).live)
            (assumed_by (state self.now).assumptions) l result };

    /// The different literals of the clause in the slot, in any order. It takes no memory.
    fn clause(&self, slot: Slot) -> &[Lit]
        requires { IsSome (maps.get (state self.now).live slot) }
        ensures clause { (c : Clause) × (maps.get (state self.now).live slot ≡ Some c) ×
            IsTrue (same_clause c result.now) }
        ensures different { length result.now ≡ size result.now }
    {
        self.store().clause(slot)
    }

    /// The sum of the lengths of the lists of literals that it keeps, which is that of the sizes of
    /// the clauses; `2^64 - 1` where it is greater. It takes no memory.
    fn literals(&self) -> u64
        ensures value { result ≡ min (state self.now).stored 18446744073709551615 }
        ensures live_alone { HoldsLiveAlone (state self.now) }
    {
        self.store().literals()
    }

    /// The first slot from this one on whose clause has the literal, if there is one. It takes no
    /// memory.
    fn next_with(&self, l: Lit, from: Slot) -> Option<Slot>
        ensures found { IfSome result (λ slot. (from ≤ slot) ×
            HasAt (maps.get (state self.now).live) l slot) }
        ensures passed_over { IfSome result (λ slot. (s : ℕ) → from ≤ s → s < slot →
            ¬ HasAt (maps.get (state self.now).live) l s) }
        ensures none { IfNone result ((s : ℕ) → from ≤ s →
            ¬ HasAt (maps.get (state self.now).live) l s) }
        ensures slots { (s : ℕ) → IsSome (maps.get (state self.now).live s) →
            s ≤ 18446744073709551615 }
    {
        first_with(self.store(), l, from)
    }

    /// How many of the live clauses have the literal, each copy counted. It takes no memory.
    fn count_with(&self, l: Lit) -> u64
        ensures value { result ≡ copies_with (state self.now).live l }
        ensures none { result ≡ 0 → (s : ℕ) →
            ¬ HasAt (maps.get (state self.now).live) l s }
        ensures some { result ≢ 0 → (s : ℕ) × HasAt (maps.get (state self.now).live) l s }
    {
        self.store().count_with(l)
    }

    /// Assumes the complements of the literals, beside what is assumed, and propagates.
    ///
    /// # Errors
    ///
    /// Where memory runs out, and ever after. What is assumed is then as it was.
    fn assume(&mut self, lits: &[Lit]) -> Result<Answer, OutOfMemory>
        requires { MayAssume (state self.old).assumptions }
        ensures assumed { Assuming (state self.old) (state self.new) (complements lits.now) result }
        ensures same_slots { slot_count self.new ≡ slot_count self.old }
    {
        self.assume_part(&ClauseSource::Given(lits), &Whole)
    }

    /// Assumes the complements of the literals of a live clause but for one, beside what is
    /// assumed, and propagates.
    ///
    /// # Errors
    ///
    /// Where memory runs out, and ever after. What is assumed is then as it was.
    fn assume_rest(&mut self, slot: Slot, l: Lit) -> Result<Answer, OutOfMemory>
        requires may { MayAssume (state self.old).assumptions }
        requires alive { IsSome (maps.get (state self.old).live slot) }
        ensures assumed { AssumingPart (state self.old) (state self.new) slot
            (λ k. not (k == l)) result }
        ensures same_slots { slot_count self.new ≡ slot_count self.old }
    {
        self.assume_part(&ClauseSource::Stored(slot), &Except(l))
    }

    /// Assumes the complements of the literals of a live clause but for those whose complement is
    /// in the set, beside what is assumed, and propagates.
    ///
    /// # Errors
    ///
    /// Where memory runs out, and ever after. What is assumed is then as it was.
    fn assume_unless(&mut self, slot: Slot, set: &[Lit]) -> Result<Answer, OutOfMemory>
        requires may { MayAssume (state self.old).assumptions }
        requires alive { IsSome (maps.get (state self.old).live slot) }
        ensures assumed { AssumingPart (state self.old) (state self.new) slot
            (λ k. not (has set.now (complement k))) result }
        ensures same_slots { slot_count self.new ≡ slot_count self.old }
    {
        self.assume_part(&ClauseSource::Stored(slot), &UnlessListed(set))
    }

    /// The same as `assume_unless`, with a set that was filled before. Each look-up in the set
    /// costs the same, however large it is.
    ///
    /// # Errors
    ///
    /// Where memory runs out, and ever after. What is assumed is then as it was.
    fn assume_reduced(&mut self, slot: Slot, set: &LiteralSet) -> Result<Answer, OutOfMemory>
        requires may { MayAssume (state self.old).assumptions }
        requires alive { IsSome (maps.get (state self.old).live slot) }
        ensures assumed { AssumingPart (state self.old) (state self.new) slot
            (λ k. not (in_set set.now (complement k))) result }
        ensures same_slots { slot_count self.new ≡ slot_count self.old }
    {
        self.assume_part(&ClauseSource::Stored(slot), &Unless(set))
    }
}
