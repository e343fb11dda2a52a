//! The model that a solver claims: the literals that it lists, and a table to look each up.

ghost use Rattle.std.specs.Prelude.{◌≡◌, false, [], ◌∷◌, OnOk};
ghost use Rattle.dimacs.specs.Claim.{IsConsistent};
ghost use Rattle.cnf_base.specs.Literals.{Literal, complement, has};

use cnf_base::{Lit, OutOfMemory};
use std::alloc::Global;
use std::marker;
use tables::{ByKey, key};

/// The literals that a solver's output lists as true. No other literal is true, and none is listed
/// with its complement.
///
/// Contracts see it as the list of these literals, in some order.
#[derive(Drop)]
pub struct Model {
    lits: Vec<Lit>,
    listed: ByKey<bool>,
}

impl marker::Model for Model {
    ghost use Rattle.std.specs.Prelude.{List, unwrap_or, false};
    ghost use Rattle.cnf_base.specs.Literals.{Literal};
    ghost use Rattle.dimacs.specs.Claim.{IsConsistent};
    ghost use Rattle.dimacs.specs.Code.Models.{IsListed};
    ghost use Rattle.tables.specs.ByKey.{at};

    ghost Value = { List Literal };

    // Each field has to be named here. The keys of the table are literals of the model.
    ghost view = { λ record { lits = lits; listed = _ }. lits.items };

    ghost invariant = { λ m.
        IsConsistent m.lits.items × IsListed (λ l. unwrap_or (at m.listed l) false) m.lits.items };
}

impl Model {
    /// Whether the literal is listed, in constant time where the listed ones are dense, and else in
    /// a logarithm of their number.
    #[inline(always)]
    pub fn holds(&self, lit: Lit) -> bool
        ensures { result ≡ has self.now lit }
    {
        self.listed.get_or(key(lit), false)
    }

    /// No literal is listed. It takes no memory.
    pub(crate) fn new(alloc: Global) -> Self
        ensures { result ≡ [] }
    {
        Model {
            lits: Vec::new(alloc),
            listed: ByKey::new(alloc),
        }
    }

    /// Lists a literal.
    pub(crate) fn insert(&mut self, lit: Lit) -> Result<(), OutOfMemory>
        requires { has self.old (complement lit) ≡ false }
        ensures listed { OnOk result
            ((l : Literal) → has self.new l ≡ has (lit ∷ self.old) l) }
        ensures consistent { IsConsistent self.new }
    {
        if !self.holds(lit) {
            self.lits.reserve(1)?;
            self.listed.reserve(key(lit), false)?;
            self.listed.set(key(lit), true);
            self.lits.push_reserved(lit);
        }
        Ok(())
    }
}
