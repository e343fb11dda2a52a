//! What a propagation answers of itself: how much it has, and what it knows with nothing assumed.

ghost use Rattle.std.specs.Prelude.{◌≡◌, ◌≢◌, ◌≤◌, ◌*◌, [], min, true, false, IsTrue};
ghost use Rattle.std.specs.Prelude.{IfOk, OnOk, OnErr};
ghost use Rattle.std.specs.FinMap as maps;
ghost use Rattle.cnf_base.specs.Literals.{Literal, has};
ghost use Rattle.theory.specs.Propagation.{Clash, Forced};
ghost use Rattle.propagation.specs.Slots.{unit_or_empty_clauses};
ghost use Rattle.watch_lists.specs.Watched.{watched_clauses};

use super::Watch;
use cnf_base::{Lit, OutOfMemory};

impl Watch {
    /// How many entries all watch lists have, two for each clause of two literals or more that is
    /// no tautology; `2^64 - 1` where they are more. It makes the lists where they are still to be
    /// made.
    ///
    /// # Errors
    ///
    /// Where memory runs out. The lists have no entries then.
    #[tactic(auto, using(crate::proofs::WatchLemmas::State::listed_steps))]
    pub fn watch_entries(&mut self) -> Result<u64, OutOfMemory>
        ensures value { IfOk result (λ entries.
            entries ≡ min self.new.entries 18446744073709551615) }
        ensures two_each { OnOk result
            (self.new.entries ≡ 2 * watched_clauses self.new.propagation.live) }
        ensures none { OnErr result (self.new.entries ≡ 0) }
        ensures same { self.new.propagation ≡ self.old.propagation }
        ensures slots { self.new.slots ≡ self.old.slots }
    {
        self.finish_loading()?;
        Ok(self.lists.entries())
    }

    /// How many entries the list of the other clauses has, one for each.
    #[tactic(auto, using(crate::proofs::WatchLemmas::State::units_shown))]
    pub fn unit_entries(&self) -> usize
        ensures value { result ≡ self.now.unit_entries }
        ensures one_each { self.now.unit_entries ≡ unit_or_empty_clauses self.now.propagation.live }
    {
        self.units.slots().len()
    }

    /// How many literals are true: at most one of each variable that was reserved.
    #[tactic(auto, using(trail::proofs::TrailLemmas::Values::fits_different))]
    pub fn trail_len(&self) -> usize
        ensures value { result ≡ self.now.trues }
        ensures fits { self.now.trues ≤ self.now.variables }
    {
        self.assumptions.trail().len()
    }

    /// Whether what follows with nothing assumed is known: all of it, or a clash. It is while an
    /// assumption stands.
    pub fn is_up_to_date(&self) -> bool
        ensures value { result ≡ self.now.is_up_to_date }
        ensures standing { self.now.propagation.assumptions ≢ [] → result ≡ true }
    {
        self.roots.is_up_to_date()
    }

    /// Whether propagation with nothing assumed is known to be a clash.
    pub fn has_root_clash(&self) -> bool
        ensures value { result ≡ self.now.has_conflict }
        ensures clash { result ≡ true → Clash (maps.get self.now.propagation.live) [] }
        ensures quiet { self.now.is_up_to_date ≡ true → result ≡ false →
            ¬ Clash (maps.get self.now.propagation.live) [] }
    {
        self.store.recall_invariant();
        let _different = self.assumptions.trail().len();
        self.roots.has_conflict()
    }

    /// The literals that are kept as true with nothing assumed. Where that is up to date and no
    /// clash, they are all that follows.
    pub fn root_literals(&self) -> &[Lit]
        ensures value { result.now ≡ self.now.roots }
        ensures sound { (l : Literal) → IsTrue (has result.now l) →
            Forced (maps.get self.now.propagation.live) [] l }
        ensures all { self.now.is_up_to_date ≡ true → self.now.has_conflict ≡ false →
            (l : Literal) →
            Forced (maps.get self.now.propagation.live) [] l → IsTrue (has result.now l) }
    {
        self.store.recall_invariant();
        &self.assumptions.trail().lits()[..self.assumptions.root_count()]
    }
}
