//! All that follows with nothing assumed, past a clash too, kept while clauses come and go.
//!
//! Past a clash both literals of a variable may follow, and a trail holds one of them. So this is a
//! list of its own, in which each literal is followed once, by the store's occurrences. Where there
//! is no clash, `Watch` answers from the literals that it keeps, and makes no such list.
//!
//! What follows without a reason clause follows without all others too. So only the removal of a
//! reason clause loses the list, and with `--keep-units` none is removed.

mod found;

ghost use Rattle.std.specs.Prelude.{◌≡◌, ℕ, true, false, None, Some, length, take};
ghost use Rattle.std.specs.Prelude.{[], IsTrue, IsSome, IfOk, OnOk};
ghost use Rattle.std.specs.FinMap as maps;
ghost use Rattle.cnf_base.specs.Literals.{Clause, has};
ghost use Rattle.propagation.specs.Closure.{IsClosure, IsWhole};
ghost use Rattle.propagation.specs.Code.Closure.{AreForced, IsFollowed, TakesIn};
ghost use Rattle.theory.specs.Propagation.{IsRootReason};

use crate::closure::found::Found;
use clause_db::{Memory, Slot, Store};
use cnf_base::OutOfMemory;
use std::alloc::Global;
use std::marker::Model;

/// The literals that follow from live clauses with nothing assumed: the whole least set, past a
/// clash too. They are sought when they are first asked for, and then kept: a clause that is added
/// adds what follows by it, and one that is removed leaves them as they are, but for a reason
/// clause of one of them. After that they are sought anew.
///
/// Contracts see the list of them, where it is kept.
#[derive(Drop)]
pub struct Closure {
    alloc: Global,
    /// All that follow, where they are kept.
    found: Option<Found>,
    /// The slots of the clauses to be looked at again, in a room that is used again.
    slots: Vec<u32>,
}

impl Model for Closure {
    ghost use Rattle.std.specs.Prelude.{ℕ, List, Option};

    ghost Value = { Option (List ℕ) };

    // Each field has to be named here. The list of literals is shown, so that what does not follow
    // is not kept; the other one has slots.
    ghost view = { λ record { alloc = _; found = found; slots = _ }. found };
}

/// Adds what follows from each clause.
fn take_all<M: Memory>(found: &mut Found, store: &Store<M>) -> Result<(), OutOfMemory>
    requires sound { AreForced (maps.get store.now.live) found.old }
    ensures sound { OnOk result (AreForced (maps.get store.now.live) found.new) }
    ensures takes { OnOk result ((k : ℕ) (c : Clause) → maps.get store.now.live k ≡ Some c →
        TakesIn found.old found.new c) }
{
    for number in 0..store.end() {
        if let Some(clause) = store.at(number) {
            found.take(clause)?;
        }
    }
    Ok(())
}

/// Adds what follows from each of the clauses in these slots.
fn take_each<M: Memory>(
    found: &mut Found,
    store: &Store<M>,
    slots: &[u32],
) -> Result<(), OutOfMemory>
    requires alive { (s : ℕ) → IsTrue (has slots.now s) → IsSome (maps.get store.now.live s) }
    requires sound { AreForced (maps.get store.now.live) found.old }
    ensures sound { OnOk result (AreForced (maps.get store.now.live) found.new) }
    ensures begins { OnOk result (take (length found.old) found.new ≡ found.old) }
    ensures takes { OnOk result ((s : ℕ) (c : Clause) → IsTrue (has slots.now s) →
        maps.get store.now.live s ≡ Some c → TakesIn found.old found.new c) }
{
    for slot in slots {
        found.take(store.clause(Slot::at(*slot as usize)))?;
    }
    Ok(())
}

/// Adds all that follows, where nothing more follows from those before the place `from`. It looks
/// at the clauses in which a further literal is false, once for each.
fn follow<M: Memory>(
    found: &mut Found,
    store: &mut Store<M>,
    slots: &mut Vec<u32>,
    from: usize,
) -> Result<(), OutOfMemory>
    requires { IsFollowed (maps.get store.old.live) from found.old }
    ensures whole { OnOk result (IsWhole (maps.get store.old.live) found.new) }
    ensures same { store.new ≡ store.old }
{
    let mut done = from;
    while done < found.lits().len() {
        let l = found.lits()[done];
        store.slots_touched(&[l], slots)?;
        take_each(found, store, slots)?;
        done += 1;
    }
    Ok(())
}

impl Closure {
    /// Nothing was asked for. It takes no memory.
    pub fn new(alloc: Global) -> Self
        ensures { result ≡ None }
    {
        Closure {
            alloc,
            found: None,
            slots: Vec::new(alloc),
        }
    }

    /// All that follows, sought where it is not kept, and taken out.
    fn take_whole<M: Memory>(&mut self, store: &mut Store<M>) -> Result<Found, OutOfMemory>
        requires { IsClosure (maps.get store.old.live) self.old }
        ensures whole { IfOk result (λ found. IsWhole (maps.get store.old.live) found) }
        ensures taken { self.new ≡ None }
        ensures same { store.new ≡ store.old }
    {
        if let Some(found) = self.found.take() {
            return Ok(found);
        }
        let mut found = Found::new(self.alloc);
        take_all(&mut found, store)?;
        follow(&mut found, store, &mut self.slots, 0)?;
        Ok(found)
    }

    /// Whether the clause in the slot is the reason of a root-level literal: that literal follows
    /// with nothing assumed, and so do the complements of all its others.
    ///
    /// The first call goes over all clauses. Later ones cost what this clause costs, until a
    /// reason clause is removed.
    ///
    /// # Errors
    ///
    /// Where memory runs out.
    pub fn is_root_reason<M: Memory>(
        &mut self,
        store: &mut Store<M>,
        slot: Slot,
    ) -> Result<bool, OutOfMemory>
        requires alive { IsSome (maps.get store.old.live slot) }
        requires closure { IsClosure (maps.get store.old.live) self.old }
        ensures yes { IfOk result (λ is_reason. is_reason ≡ true → (c : Clause) →
            maps.get store.old.live slot ≡ Some c → IsRootReason (maps.get store.old.live) c) }
        ensures no { IfOk result (λ is_reason. is_reason ≡ false → (c : Clause) →
            maps.get store.old.live slot ≡ Some c →
            ¬ IsRootReason (maps.get store.old.live) c) }
        ensures closure { IsClosure (maps.get store.old.live) self.new }
        ensures same { store.new ≡ store.old }
    {
        let found = self.take_whole(store)?;
        let clause = store.clause(slot);
        let is_reason = found.left(clause).is_one_at_most(clause);
        self.found = Some(found);
        Ok(is_reason)
    }

    /// Takes note of a clause that was added: adds what follows by it, where what follows without
    /// it is kept.
    ///
    /// # Errors
    ///
    /// Where memory runs out. Nothing is kept then.
    pub fn enter<M: Memory>(&mut self, store: &mut Store<M>, slot: Slot) -> Result<(), OutOfMemory>
        requires alive { IsSome (maps.get store.old.live slot) }
        requires closure { IsClosure (maps.get (maps.remove store.old.live slot)) self.old }
        ensures closure { IsClosure (maps.get store.old.live) self.new }
        ensures same { store.new ≡ store.old }
    {
        if self.found.is_none() {
            return Ok(());
        }
        self.enter_kept(store, slot)
    }

    /// The same, where something may be kept. Inlined, it would copy all that is kept.
    #[cold]
    #[inline(never)]
    fn enter_kept<M: Memory>(&mut self, store: &mut Store<M>, slot: Slot) -> Result<(), OutOfMemory>
        requires alive { IsSome (maps.get store.old.live slot) }
        requires closure { IsClosure (maps.get (maps.remove store.old.live slot)) self.old }
        ensures closure { IsClosure (maps.get store.old.live) self.new }
        ensures same { store.new ≡ store.old }
    {
        let Some(mut found) = self.found.take() else {
            return Ok(());
        };
        let known = found.lits().len();
        found.take(store.clause(slot))?;
        follow(&mut found, store, &mut self.slots, known)?;
        self.found = Some(found);
        Ok(())
    }

    /// Takes note of a clause that is to be removed: nothing is kept any more where it is a reason
    /// clause of a literal that follows. It takes no memory.
    pub fn leave<M: Memory>(&mut self, store: &Store<M>, slot: Slot)
        requires alive { IsSome (maps.get store.now.live slot) }
        requires closure { IsClosure (maps.get store.now.live) self.old }
        ensures closure { IsClosure (maps.get (maps.remove store.now.live slot)) self.new }
    {
        let Some(found) = &self.found else {
            return;
        };
        let clause = store.clause(slot);
        if found.left(clause).is_one_at_most(clause) {
            self.found = None;
        }
    }
}
