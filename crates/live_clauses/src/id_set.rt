//! Sets of identifiers: trees, since a proof chooses their numbers.

ghost use Rattle.std.specs.Prelude.{◌≡◌, ℕ, ◌||◌, ◌==◌, not, length, [], IfOk, OnOk};
ghost use Rattle.std.specs.Prelude.{nat_eq};
ghost use Rattle.std.specs.List.{IsDistinct};
ghost use Rattle.cnf_base.specs.Literals.{has};

use cnf_base::OutOfMemory;
use std::alloc::Global;
use std::collections::BTreeSet;
use std::marker::Model;

/// Identifiers, none of them twice. Contracts see them as a list, in no stated order.
#[derive(Drop)]
pub struct IdSet {
    ids: BTreeSet<u64>,
}

impl Model for IdSet {
    ghost use Rattle.std.specs.Prelude.{ℕ, List};
    ghost use Rattle.std.specs.Coded.{coded_list, coded_ℕ};

    ghost Value = { List ℕ };

    ghost coded = { coded_list coded_ℕ };

    // Each field has to be named here.
    ghost view = { λ record { ids = ids }. ids.keys };
}

impl IdSet {
    /// None. It takes no memory.
    pub fn new(alloc: Global) -> Self
        ensures { result ≡ [] }
    {
        let ids = BTreeSet::new(alloc);
        IdSet { ids }
    }

    /// Adds the identifier, and tells whether it is new.
    pub fn insert(&mut self, id: u64) -> Result<bool, OutOfMemory>
        ensures new { IfOk result (λ is_new. is_new ≡ not (has self.old id)) }
        ensures ids { OnOk result ((k : ℕ) → has self.new k ≡ (has self.old k || (id == k))) }
    {
        let is_new = self.ids.insert(id)?;
        Ok(is_new)
    }

    /// Whether the identifier is one of them.
    pub fn contains(&self, id: u64) -> bool
        ensures { result ≡ has self.now id }
    {
        self.ids.contains(&id)
    }

    /// How many there are.
    #[tactic(auto, using(crate::proofs::ClausesLemmas::Distinct::distinct_from_sorted))]
    pub fn len(&self) -> usize
        ensures len { result ≡ length self.now }
        ensures different { IsDistinct nat_eq self.now }
    {
        self.ids.len()
    }
}
