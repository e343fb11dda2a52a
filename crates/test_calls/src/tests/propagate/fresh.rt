//! Propagations that are made where they are needed, so that a test can be the same of each.

ghost use Rattle.std.specs.Prelude.{◌≡◌, [], ◌∷◌, List, IfOk};
ghost use Rattle.propagation.specs.Assumptions.{Assumption};

use propagation::{Propagate, Scan};
use std::alloc::Global;
use std::test::Fail;
use watch::Watch;

/// A propagation that can be made from nothing.
///
/// A test that holds one behind a type parameter is proved many times faster than one that holds
/// `Scan` or `Watch`.
pub(crate) trait Fresh: Propagate + Drop {
    /// One with nothing assumed.
    fn fresh(alloc: Global) -> Result<Self, Fail>
        ensures { IfOk result (λ p. (Self.state p).assumptions ≡ []) };
}

impl Fresh for Scan {
    fn fresh(alloc: Global) -> Result<Self, Fail> {
        Ok(Scan::new(alloc)?)
    }
}

impl Fresh for Watch {
    fn fresh(alloc: Global) -> Result<Self, Fail> {
        Ok(Watch::new(alloc)?)
    }
}

/// What is known with nothing assumed: whether all of it is, whether it is a clash, and how many
/// literals are kept.
pub(crate) type Known = (bool, bool, usize);

/// What `Watch` tells besides. Behind a type parameter, as above, so are all calls of it.
pub(crate) trait Watching: Fresh {
    fn known(&self) -> Known;

    /// How many literals are true.
    fn true_literals(&self) -> usize;

    /// How many entries the watch lists have, and the list of the other clauses.
    fn entries(&mut self) -> Result<(u64, usize), Fail>;

    /// Takes back the last assumption.
    fn take_back(&mut self)
        requires { (last : Assumption) × (rest : List Assumption) ×
            ((Self.state self.old).assumptions ≡ last ∷ rest) }
        ensures { (last : Assumption) (rest : List Assumption) →
            (Self.state self.old).assumptions ≡ last ∷ rest →
            (Self.state self.new).assumptions ≡ rest };
}

impl Watching for Watch {
    fn known(&self) -> Known {
        (
            self.is_up_to_date(),
            self.has_root_clash(),
            self.root_literals().len(),
        )
    }

    fn true_literals(&self) -> usize {
        self.trail_len()
    }

    fn entries(&mut self) -> Result<(u64, usize), Fail> {
        Ok((self.watch_entries()?, self.unit_entries()))
    }

    fn take_back(&mut self) {
        Watch::take_back(self);
    }
}
