//! A clause as it was written.

ghost use Rattle.std.specs.Prelude.{◌≡◌, ◌++◌, ◌∷◌, [], OnOk};
ghost use Rattle.dimacs.specs.Code.Reading.{is_nil};

use cnf_base::{Lit, OutOfMemory};
use std::alloc::Global;
use std::marker::Model;

/// The literals of a clause in written order. A reader fills it again and again, and it keeps its
/// room.
#[derive(Drop)]
pub struct ClauseBuf {
    lits: Vec<Lit>,
}

impl Model for ClauseBuf {
    ghost use Rattle.std.specs.Prelude.{List};
    ghost use Rattle.cnf_base.specs.Literals.{Literal};

    ghost Value = { List Literal };

    // Each field has to be named here.
    ghost view = { λ record { lits = lits }. lits.items };
}

impl ClauseBuf {
    /// No literals. It takes no memory.
    pub fn new(alloc: Global) -> Self
        ensures { result ≡ [] }
    {
        ClauseBuf {
            lits: Vec::new(alloc),
        }
    }

    /// The literals in written order.
    pub fn lits(&self) -> &[Lit]
        ensures { result.now ≡ self.now }
    {
        self.lits.as_slice()
    }

    pub(crate) fn clear(&mut self)
        ensures { self.new ≡ [] }
    {
        self.lits.clear();
    }

    pub(crate) fn push(&mut self, lit: Lit) -> Result<(), OutOfMemory>
        ensures { OnOk result (self.new ≡ self.old ++ lit ∷ []) }
    {
        self.lits.push(lit)?;
        Ok(())
    }

    pub(crate) fn is_empty(&self) -> bool
        ensures { result ≡ is_nil self.now }
    {
        self.lits.is_empty()
    }
}
