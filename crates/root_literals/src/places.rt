//! Where the literals stand that are true with nothing assumed.

ghost use Rattle.std.specs.Prelude.{◌≡◌, ◌<◌, length, take, slice_index, true, IsTrue, IfSome};
ghost use Rattle.cnf_base.specs.Literals.{has};

use cnf_base::{Lit, OutOfMemory};
use std::alloc::Global;
use tables::ByKey;

/// The place of a literal, sought from both ends.
#[tactic(auto, using(crate::proofs::RootLemmas::Steps::place_steps))]
pub(crate) fn place_of(lits: &[Lit], l: Lit) -> usize
    requires { IsTrue (has lits.now l) }
    ensures inside { result < length lits.now }
    ensures literal { slice_index lits.now result ≡ l }
{
    let mut before = 0;
    let mut behind = lits.len();
    while before < behind {
        if lits[before] == l {
            return before;
        }
        before += 1;
        behind -= 1;
        if lits[behind] == l {
            return behind;
        }
    }
    0
}

/// By variable the place at which its literal stood when places were noted last. A literal may have
/// gone since, so each place is looked at before it is told.
///
/// Places are noted where they are asked for, and not when a literal is set: most never are.
#[derive(Drop)]
pub(crate) struct Places {
    by_variable: ByKey<u32>,
    /// The places from this one on are yet to be noted.
    noted: usize,
}

impl Places {
    /// None is noted.
    pub(crate) fn new(alloc: Global) -> Self {
        Places {
            by_variable: ByKey::new(alloc),
            noted: 0,
        }
    }

    /// Makes room for the place of the literal of a variable.
    pub(crate) fn reserve(&mut self, variable: u32) -> Result<(), OutOfMemory> {
        self.by_variable.reserve(variable, 0)
    }

    /// Notes the places of the literals that were set since. It takes no memory.
    pub(crate) fn note(&mut self, lits: &[Lit]) {
        for place in self.noted..lits.len() {
            let variable = lits[place].var();
            if let (Some(_), Ok(number)) = (self.by_variable.get(variable), u32::try_from(place)) {
                self.by_variable.set(variable, number);
            }
        }
        self.noted = lits.len();
    }

    /// Only the first so many literals are left.
    pub(crate) fn cut(&mut self, len: usize) {
        self.noted = self.noted.min(len);
    }

    /// The place of a literal, if it is known.
    pub(crate) fn place(&self, lits: &[Lit], l: Lit) -> Option<usize>
        ensures inside { IfSome result (λ place. place < length lits.now) }
        ensures literal { IfSome result (λ place. slice_index lits.now place ≡ l) }
    {
        let place = self.by_variable.get(l.var())? as usize;
        if place < lits.len() && lits[place] == l {
            Some(place)
        } else {
            None
        }
    }

    /// Whether a literal is known to stand before a place.
    pub(crate) fn stands_before(&self, lits: &[Lit], l: Lit, end: usize) -> bool
        ensures { result ≡ true → IsTrue (has (take end lits.now) l) }
    {
        match self.place(lits, l) {
            Some(place) => place < end,
            None => false,
        }
    }
}
