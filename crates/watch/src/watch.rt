//! Propagation with two watched literals a clause, which stand first in the stored clause.
//!
//! So a visit reads one place of memory for a clause and its watched literals, and a move exchanges
//! two literals of it. Contracts see each clause by rising literals: no move is seen there.

ghost use Rattle.std.specs.Prelude.{◌≡◌, ◌≢◌, [], ◌*◌, ◌≤◌, ◌<◌, drop, min, true, false};
ghost use Rattle.std.specs.Prelude.{IfOk, OnOk, OnErr};
ghost use Rattle.std.specs.FinMap as maps;
ghost use Rattle.theory.specs.Drat.{SameLive};
ghost use Rattle.propagation.specs.Assumptions.{HoldsLiveAlone};
ghost use Rattle.propagation.specs.Slots.{most_slots};

mod questions;

use crate::assume::assume_part;
use crate::clause_source::reserve_given;
use crate::clauses::{insert_clause, remove_clause};
use crate::gather::gathered;
use crate::refresh::refresh;
use crate::room::reserve_room;
use clause_db::{Blocks, Slot, Store};
use cnf_base::{Lit, OutOfMemory};
use propagation::{Answer, Assumptions, ClauseSource, Closure, Propagate, is_sparse};
use root_literals::{Roots, arrange, is_reason_at_root};
use std::alloc::Global;
use std::marker::Model;
use trail::{Part, Value};
use watch_lists::{SlotList, WatchLists, add_entries, listed, remove_entries};

/// Live clauses, and unit propagation with two watched literals a clause: what follows from an
/// assumption is found without a look at the clauses that have nothing to do with it.
///
/// Contracts see what they see of any propagation, how many slots its clauses stand in, and how
/// many entries its lists have.
#[derive(Drop)]
pub struct Watch {
    alloc: Global,
    /// That of the hashes of clauses.
    seed: u64,
    /// Of a clause of two literals or more it watches the first two, unless it is a tautology.
    store: Store,
    /// The slots of the clauses of one literal and of none.
    units: SlotList,
    /// Those of the clauses that have a literal and its complement: nothing follows from them.
    tautologies: SlotList,
    assumptions: Assumptions,
    /// What is known of the literals that are true with nothing assumed.
    roots: Roots,
    /// All that follows with nothing assumed, from when it is first asked for past a conflict.
    closure: Closure,
    has_refused: bool,
    /// Whether the lists are still to be made. Until then they have no entries.
    is_loading: bool,
    /// They are dropped last: a large block that is given back behind so many small ones makes the
    /// C library join all of these.
    lists: WatchLists,
}

impl Model for Watch {
    ghost use Rattle.std.specs.Prelude.{◌≡◌, length};
    ghost use Rattle.clause_db.specs.Store.{literals_in};
    ghost use Rattle.watch_lists.specs.Lists.{entries_in};
    ghost use Rattle.root_literals.specs.Order.{each_in_order};
    ghost use Rattle.propagation.specs.Assumptions.{roots_in};
    ghost use Rattle.propagation.specs.Closure.{IsClosure};
    ghost use Rattle.std.specs.FinMap as maps;
    ghost use Rattle.root_literals.specs.Roots.{has_conflict, is_up_to_date};
    ghost use Rattle.watch_lists.specs.Watched.{IsTautologyList};
    ghost use Rattle.watch.specs.Code.State.{IsWatch, variables_in, watch_code};
    ghost use Rattle.watch.specs.State.{WatchState};

    ghost Value = { WatchState };

    ghost coded = { watch_code };

    // The order of a clause's literals changes with each move, so it is not shown. Each field has
    // to be named here, those of the roots too. Of them the store alone has lists of literals of
    // clauses; the tautologies are slots, and the roots have slots, places and counts. Of the
    // literals that are true or follow, the trail and the closure have lists: the trail's length is
    // shown, and the closure's list has what follows from the live clauses and nothing else.
    ghost view = { λ record {
      alloc = _;
      seed = _;
      store = store;
      lists = lists;
      units = units;
      tautologies = _;
      assumptions = assumptions;
      roots = record {
        kept = kept;
        history = record { visited = _; floor = _; doubts = _; looks = _ };
        reasons = _;
        uses = record { counts = _; counted = _ };
        places = record { by_variable = _; noted = _ };
        with_room = _;
      };
      closure = _;
      has_refused = has_refused;
      is_loading = is_loading;
    }. record {
      propagation = record {
        live = each_in_order store.live;
        assumptions = assumptions.assumptions;
        stored = store.stored;
        has_refused = has_refused;
      };
      slots = store.slots;
      entries = entries_in lists;
      unit_entries = length units;
      trues = length assumptions.trail.lits;
      variables = variables_in assumptions.trail.reserved;
      roots = roots_in assumptions.trail.lits assumptions.assumptions assumptions.starts;
      is_loading = is_loading;
      is_up_to_date = is_up_to_date kept;
      has_conflict = has_conflict kept;
    } };

    ghost invariant = { λ w.
        IsWatch w.is_loading w.store.live w.lists w.units w.roots w.assumptions
        × (w.store.stored ≡ literals_in (each_in_order w.store.live))
        × IsClosure (maps.get (each_in_order w.store.live)) w.closure
        × IsTautologyList (maps.get (each_in_order w.store.live)) w.tautologies };
}

impl Watch {
    /// No clauses, and nothing is assumed.
    pub fn new(alloc: Global) -> Result<Self, OutOfMemory>
        ensures live { IfOk result (λ w. w.propagation.live ≡ maps.empty) }
        ensures nothing_assumed { IfOk result (λ w. w.propagation.assumptions ≡ []) }
        ensures refused { IfOk result (λ w. w.propagation.has_refused ≡ false) }
        ensures slots { IfOk result (λ w. w.slots ≡ 0) }
    {
        Watch::seeded(alloc, 0)
    }

    /// The same, with clauses hashed by the seed, a number that whoever chooses them shouldn't
    /// know, so that none are chosen that are slow to find. No answer depends on it.
    #[tactic(auto, using(root_literals::proofs::RootLemmas::Reasons::ordered_empty))]
    pub fn seeded(alloc: Global, seed: u64) -> Result<Self, OutOfMemory>
        ensures live { IfOk result (λ w. w.propagation.live ≡ maps.empty) }
        ensures nothing_assumed { IfOk result (λ w. w.propagation.assumptions ≡ []) }
        ensures refused { IfOk result (λ w. w.propagation.has_refused ≡ false) }
        ensures slots { IfOk result (λ w. w.slots ≡ 0) }
    {
        Ok(Watch {
            alloc,
            seed,
            store: Store::seeded(alloc, seed)?,
            lists: WatchLists::new(alloc),
            units: SlotList::new(alloc),
            tautologies: SlotList::new(alloc),
            assumptions: Assumptions::new(alloc)?,
            roots: Roots::new(alloc),
            closure: Closure::new(alloc),
            has_refused: false,
            is_loading: true,
        })
    }

    /// Makes the watch lists, once for all clauses that were loaded.
    ///
    /// # Errors
    ///
    /// Where memory runs out. The lists are then still to be made.
    #[cold]
    #[inline(never)]
    #[tactic(auto, using(crate::proofs::WatchLemmas::State::tautologies_there))]
    fn make_lists(&mut self) -> Result<(), OutOfMemory>
        requires { self.old.is_loading ≡ true }
        ensures same { self.new.propagation ≡ self.old.propagation }
        ensures loaded { OnOk result (self.new.is_loading ≡ false) }
        ensures none { OnErr result (self.new.entries ≡ 0) }
        ensures slots { self.new.slots ≡ self.old.slots }
    {
        let lists = listed(self.alloc, &self.store, &self.tautologies)?;
        self.store.keep_counts()?;
        self.lists = lists;
        self.is_loading = false;
        Ok(())
    }

    /// The same, where they are still to be made.
    fn finish_loading(&mut self) -> Result<(), OutOfMemory>
        ensures same { self.new.propagation ≡ self.old.propagation }
        ensures loaded { OnOk result (self.new.is_loading ≡ false) }
        ensures none { OnErr result (self.new.entries ≡ 0) }
        ensures slots { self.new.slots ≡ self.old.slots }
    {
        if !self.is_loading {
            return Ok(());
        }
        self.make_lists()
    }

    /// Brings what follows with nothing assumed up to date, before an assumption or a question of
    /// it.
    ///
    /// # Errors
    ///
    /// Where memory runs out, and ever after. What is assumed is then as it was.
    #[tactic(auto, using(crate::proofs::WatchLemmas::State::ordered_steps))]
    fn prepare(&mut self) -> Result<(), OutOfMemory>
        ensures live { self.new.propagation.live ≡ self.old.propagation.live }
        ensures live_alone { HoldsLiveAlone self.new.propagation }
        ensures assumptions { self.new.propagation.assumptions ≡
            self.old.propagation.assumptions }
        ensures loaded { OnOk result (self.new.is_loading ≡ false) }
        ensures up_to_date { OnOk result (self.new.is_up_to_date ≡ true) }
        ensures never_refused { OnOk result (self.old.propagation.has_refused ≡ false) }
        ensures not_refused { OnOk result (self.new.propagation.has_refused ≡ false) }
        ensures refused { OnErr result (self.new.propagation.has_refused ≡ true) }
        ensures slots { self.new.slots ≡ self.old.slots }
    {
        if self.has_refused {
            self.store.recall_invariant();
            return Err(OutOfMemory);
        }
        if self.finish_loading().is_err() {
            self.has_refused = true;
            return Err(OutOfMemory);
        }
        let refreshed = refresh(
            &mut self.store,
            &mut self.lists,
            &self.units,
            &mut self.assumptions,
            &mut self.roots,
        );
        self.store.recall_invariant();
        self.has_refused = refreshed.is_err();
        refreshed
    }

    /// Gathers the clauses, out of line: here is room for all of another one.
    #[cold]
    #[inline(never)]
    #[tactic(auto, using(propagation::proofs::PropagationLemmas::Gather::needed_within))]
    fn gather_sparse(&mut self) -> Result<(), OutOfMemory>
        requires { self.old.propagation.assumptions ≡ [] }
        ensures live { SameLive (maps.values self.new.propagation.live)
            (maps.values self.old.propagation.live) }
        ensures live_alone { HoldsLiveAlone self.new.propagation }
        ensures nothing_assumed { self.new.propagation.assumptions ≡ [] }
        ensures refused { self.new.propagation.has_refused ≡ self.old.propagation.has_refused }
        ensures room { OnOk result (self.new.slots ≤ most_slots self.new.propagation.live) }
        ensures err { OnErr result (self.new ≡ self.old) }
    {
        self.store.recall_invariant();
        let mut gathered = gathered(self.alloc, self.seed, &self.store)?;
        gathered.has_refused = self.has_refused;
        std::mem::swap(self, &mut gathered);
        Ok(())
    }

    /// Takes back the last assumption, without memory. What is known with nothing assumed stays.
    pub fn take_back(&mut self)
        requires { self.old.propagation.assumptions ≢ [] }
        ensures assumptions { self.new.propagation.assumptions ≡
            drop 1 self.old.propagation.assumptions }
        ensures live { self.new.propagation.live ≡ self.old.propagation.live }
        ensures live_alone { HoldsLiveAlone self.new.propagation }
        ensures refused { self.new.propagation.has_refused ≡ self.old.propagation.has_refused }
        ensures up_to_date { self.new.is_up_to_date ≡ true }
        ensures roots { self.new.roots ≡ self.old.roots }
        ensures conflict { self.new.has_conflict ≡ self.old.has_conflict }
        ensures slots { self.new.slots ≡ self.old.slots }
    {
        self.assumptions.undo();
    }
}

impl Propagate for Watch {
    type Clauses = Blocks;

    ghost state = { λ w. w.propagation };

    ghost slot_count = { λ w. w.slots };

    fn alloc(&self) -> Global {
        self.alloc
    }

    fn store(&self) -> &Store {
        &self.store
    }

    #[tactic(auto, using(crate::proofs::WatchLemmas::State::insert_steps))]
    fn insert(&mut self, lits: &[Lit]) -> Result<Slot, OutOfMemory> {
        reserve_room(&mut self.assumptions, &mut self.roots, lits)?;
        let slot = insert_clause(&mut self.store, &mut self.closure, lits)?;
        let arranged = arrange(&mut self.store, self.assumptions.trail(), slot);
        match add_entries(
            &self.store,
            &mut self.lists,
            &mut self.units,
            &mut self.tautologies,
            slot,
            arranged.has_complements,
            self.is_loading,
        ) {
            Ok(()) => {
                self.roots
                    .enter(&self.store, &mut self.assumptions, slot, arranged.left);
                Ok(slot)
            }
            Err(refused) => {
                remove_clause(&mut self.store, &mut self.closure, slot);
                Err(refused)
            }
        }
    }

    #[tactic(auto, using(crate::proofs::WatchLemmas::State::remove_steps))]
    fn remove(&mut self, slot: Slot) {
        self.roots
            .leave(&self.store, &mut self.lists, &mut self.assumptions, slot);
        remove_entries(
            &self.store,
            &mut self.lists,
            &mut self.units,
            &mut self.tautologies,
            slot,
            self.is_loading,
        );
        remove_clause(&mut self.store, &mut self.closure, slot);
    }

    fn gather(&mut self) -> Result<(), OutOfMemory> {
        self.store.recall_invariant();
        let units = self.unit_entries();
        if is_sparse(self.store.end(), self.store.literals(), units) {
            return self.gather_sparse();
        }
        // Where memory is refused, entries only take longer to find.
        let _ = self.lists.index_places(self.alloc, self.seed);
        Ok(())
    }

    fn find(&mut self, lits: &[Lit]) -> Option<Slot> {
        self.store.find(lits)
    }

    fn touched(&mut self, lits: &[Lit], slots: &mut Vec<u32>) -> Result<(), OutOfMemory> {
        self.store.slots_touched(lits, slots)
    }

    #[tactic(auto, using(crate::proofs::WatchLemmas::State::assume_steps))]
    fn assume_part<P: Part>(
        &mut self,
        source: &ClauseSource<'_>,
        part: &P,
    ) -> Result<Answer, OutOfMemory> {
        self.prepare()?;
        if reserve_given(&mut self.assumptions, &mut self.roots, source).is_err() {
            self.has_refused = true;
            return Err(OutOfMemory);
        }
        let assumed = assume_part(
            &mut self.store,
            &mut self.lists,
            &self.units,
            &mut self.assumptions,
            &mut self.roots,
            source,
            part,
        );
        self.store.recall_invariant();
        self.has_refused = assumed.is_err();
        assumed
    }

    #[tactic(auto, using(crate::proofs::WatchLemmas::State::reason_steps))]
    fn is_root_reason(&mut self, slot: Slot) -> Result<bool, OutOfMemory> {
        self.prepare()?;
        let found = is_reason_at_root(
            &mut self.store,
            &mut self.closure,
            &self.assumptions,
            &self.roots,
            slot,
        );
        self.store.recall_invariant();
        self.has_refused = found.is_err();
        found
    }

    fn undo(&mut self) {
        self.take_back();
    }

    fn value(&self, l: Lit) -> Value {
        self.assumptions.trail().value(l)
    }
}
