//! Propagation by plain passes over all clauses.

mod gather;
mod unit;

ghost use Rattle.std.specs.Prelude.{◌≡◌, [], filter, false, IfOk, IsSome};
ghost use Rattle.std.specs.FinMap as maps;
ghost use Rattle.cnf_base.specs.Literals.{complements};
ghost use Rattle.propagation.specs.Assumptions.{Assuming, AssumingPart, MayAssume};
ghost use Rattle.propagation.specs.Code.Scan.{AssumesOn, IsScan};
ghost use Rattle.trail.specs.Trail.{HasRoom};

use crate::assumptions::Assumptions;
use crate::scan::gather::gathered;
use crate::scan::unit::propagate;
use crate::sparse::is_sparse;
use crate::{Answer, ClauseSource, Closure, Propagate};
use clause_db::{Slot, Slots, Store};
use cnf_base::{Lit, OutOfMemory};
use std::alloc::Global;
use std::marker::Model;
use trail::{Part, Value};

/// Live clauses, and unit propagation by plain passes over all of them: slow, and in little memory.
///
/// Contracts see what they see of any propagation, and how many slots its clauses stand in.
#[derive(Drop)]
pub struct Scan {
    alloc: Global,
    store: Store<Slots>,
    assumptions: Assumptions,
    has_refused: bool,
}

impl Model for Scan {
    ghost use Rattle.propagation.specs.Code.Coding.{scan_code};
    ghost use Rattle.propagation.specs.Scan.{ScanState};

    ghost Value = { ScanState };

    ghost coded = { scan_code };

    ghost use Rattle.std.specs.Prelude.{◌≡◌};
    ghost use Rattle.clause_db.specs.Store.{literals_in};
    ghost use Rattle.propagation.specs.Code.Scan.{IsScan};

    // Each field has to be named here. Of them the store alone has lists of literals of clauses.
    ghost view = { λ record {
      alloc = _;
      store = store;
      assumptions = assumptions;
      has_refused = has_refused;
    }. record {
      propagation = record {
        live = store.live;
        assumptions = assumptions.assumptions;
        stored = store.stored;
        has_refused = has_refused;
      };
      slots = store.slots;
    } };

    ghost invariant = { λ s.
        IsScan s.store.live s.assumptions × (s.store.stored ≡ literals_in s.store.live) };
}

/// Assumes the complements of a part of a clause, beside what is assumed, and propagates.
fn assume_part<P: Part>(
    store: &Store<Slots>,
    assumptions: &mut Assumptions,
    clause: &[Lit],
    part: &P,
) -> Result<Answer, OutOfMemory>
    requires may { MayAssume assumptions.old.assumptions }
    requires room { HasRoom assumptions.old.trail.reserved clause.now }
    requires scan { IsScan store.now.live assumptions.old }
    ensures assumed { AssumesOn store.now.live assumptions.old assumptions.new
        (complements (filter (P.keeps part.now) clause.now)) result }
    ensures scan { IsScan store.now.live assumptions.new }
{
    if assumptions.assume(clause, part)? {
        return Ok(Answer::Clash);
    }
    let answer = propagate(store, assumptions);
    assumptions.answer(answer);
    Ok(answer)
}

impl Scan {
    /// No clauses, and nothing is assumed.
    pub fn new(alloc: Global) -> Result<Self, OutOfMemory>
        ensures live { IfOk result (λ s. s.propagation.live ≡ maps.empty) }
        ensures nothing_assumed { IfOk result (λ s. s.propagation.assumptions ≡ []) }
        ensures refused { IfOk result (λ s. s.propagation.has_refused ≡ false) }
        ensures slots { IfOk result (λ s. s.slots ≡ 0) }
    {
        Ok(Scan {
            alloc,
            store: Store::new(alloc)?,
            assumptions: Assumptions::new(alloc)?,
            has_refused: false,
        })
    }

    /// Assumes the complements of a part of these literals, beside what is assumed, and propagates.
    ///
    /// # Errors
    ///
    /// Where memory runs out, and ever after. What is assumed is then as it was.
    fn assume_given<P: Part>(&mut self, lits: &[Lit], part: &P) -> Result<Answer, OutOfMemory>
        requires { MayAssume self.old.propagation.assumptions }
        ensures assumed { Assuming self.old.propagation self.new.propagation
            (complements (filter (P.keeps part.now) lits.now)) result }
        ensures same_slots { self.new.slots ≡ self.old.slots }
    {
        if self.has_refused || self.assumptions.reserve(lits).is_err() {
            self.has_refused = true;
            return Err(OutOfMemory);
        }
        let assumed = assume_part(&self.store, &mut self.assumptions, lits, part);
        self.has_refused = assumed.is_err();
        assumed
    }

    /// The same with a part of a live clause.
    fn assume_stored<P: Part>(&mut self, slot: Slot, part: &P) -> Result<Answer, OutOfMemory>
        requires may { MayAssume self.old.propagation.assumptions }
        requires alive { IsSome (maps.get self.old.propagation.live slot) }
        ensures assumed { AssumingPart self.old.propagation self.new.propagation slot
            (P.keeps part.now) result }
        ensures same_slots { self.new.slots ≡ self.old.slots }
    {
        if self.has_refused {
            return Err(OutOfMemory);
        }
        let clause = self.store.clause(slot);
        let assumed = assume_part(&self.store, &mut self.assumptions, clause, part);
        self.has_refused = assumed.is_err();
        assumed
    }
}

impl Propagate for Scan {
    type Clauses = Slots;

    ghost state = { λ s. s.propagation };

    ghost slot_count = { λ s. s.slots };

    fn alloc(&self) -> Global {
        self.alloc
    }

    fn store(&self) -> &Store<Slots> {
        &self.store
    }

    fn insert(&mut self, lits: &[Lit]) -> Result<Slot, OutOfMemory> {
        self.assumptions.reserve(lits)?;
        self.store.insert(lits)
    }

    #[tactic(auto, using(crate::proofs::PropagationLemmas::Scan::removed_steps))]
    fn remove(&mut self, slot: Slot) {
        self.store.remove(slot);
    }

    /// It counts no unit clauses, so that it may do this sooner than needed.
    #[tactic(auto, using(crate::proofs::PropagationLemmas::Gather::needed_within))]
    fn gather(&mut self) -> Result<(), OutOfMemory> {
        self.store.recall_invariant();
        if is_sparse(self.store.end(), self.store.literals(), 0) {
            let mut gathered = gathered(self.alloc, &self.store)?;
            gathered.has_refused = self.has_refused;
            std::mem::swap(self, &mut gathered);
        }
        Ok(())
    }

    fn find(&mut self, lits: &[Lit]) -> Option<Slot> {
        self.store.find(lits)
    }

    fn touched(&mut self, lits: &[Lit], slots: &mut Vec<u32>) -> Result<(), OutOfMemory> {
        self.store.slots_touched(lits, slots)
    }

    fn assume_part<P: Part>(
        &mut self,
        source: &ClauseSource<'_>,
        part: &P,
    ) -> Result<Answer, OutOfMemory> {
        match *source {
            ClauseSource::Given(lits) => self.assume_given(lits, part),
            ClauseSource::Stored(slot) => self.assume_stored(slot, part),
        }
    }

    fn is_root_reason(&mut self, slot: Slot) -> Result<bool, OutOfMemory> {
        if self.has_refused {
            return Err(OutOfMemory);
        }
        let mut closure = Closure::new(self.alloc);
        let found = closure.is_root_reason(&mut self.store, slot);
        self.has_refused = found.is_err();
        found
    }

    fn undo(&mut self) {
        self.assumptions.undo();
    }

    fn value(&self, l: Lit) -> Value {
        self.assumptions.trail().value(l)
    }
}
