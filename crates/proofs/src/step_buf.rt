//! One step of a proof.

ghost use Rattle.std.specs.Prelude.{◌≡◌, [], length, IsTrue, OnOk};
ghost use Rattle.std.specs.List.{list_all};
ghost use Rattle.proofs.specs.Steps.{clause_part, witness_part, is_hint, is_small, named, deleting};
ghost use Rattle.proofs.specs.Steps.{with_literal, with_hint};

use cnf_base::{Lit, OutOfMemory};
use std::alloc::Global;
use std::marker::Model;

/// What a step does.
#[derive(Clone, Copy, Debug, PartialEq, Eq)]
pub enum StepKind {
    Add,
    Delete,
}

/// One step of a proof. A reader fills it again and again, and it keeps its room.
///
/// The identifier is 0 in DRAT. The identifiers that an LRAT deletion lists stand in the hints.
#[derive(Drop)]
pub struct StepBuf {
    kind: StepKind,
    id: u64,
    lits: Vec<Lit>,
    hints: Vec<i64>,
}

impl Model for StepBuf {
    ghost use Rattle.std.specs.Prelude.{IsTrue};
    ghost use Rattle.std.specs.List.{list_all};
    ghost use Rattle.proofs.specs.Steps.{Step, is_hint, is_small};

    ghost Value = { Step };

    // Each field has to be named here: a step holds no literals and hints but those that it shows.
    ghost view = { λ record { kind = kind; id = id; lits = lits; hints = hints }.
        record { kind = kind; id = id; lits = lits.items; hints = hints.items } };

    ghost invariant = { λ s.
        (IsTrue (is_small s.id)) × (IsTrue (list_all (is_hint s.kind) s.hints.items)) };
}

/// How many literals stand before the first one stands a second time: all of them where it does
/// not.
fn clause_len(lits: &[Lit]) -> usize
    ensures { result ≡ length (clause_part lits.now) }
{
    let Some((first, rest)) = lits.split_first() else {
        return 0;
    };
    let mut len = 1;
    for l in rest {
        if l == first {
            return len;
        }
        len += 1;
    }
    len
}

/// The clause and the set that these literals list: the clause ends before its first literal stands
/// a second time, and the set begins there. No literal is copied, and it takes no memory.
pub fn parts_of(lits: &[Lit]) -> (&[Lit], &[Lit])
    ensures clause { result.0.now ≡ clause_part lits.now }
    ensures set { result.1.now ≡ witness_part lits.now }
{
    lits.split_at(clause_len(lits))
}

impl StepBuf {
    /// A step without literals, which takes no memory.
    pub fn new(alloc: Global) -> Self
        ensures { result ≡ record { kind = StepKind.Add; id = 0; lits = []; hints = [] } }
    {
        StepBuf {
            kind: StepKind::Add,
            id: 0,
            lits: Vec::new(alloc),
            hints: Vec::new(alloc),
        }
    }

    /// Whether it adds a clause or deletes.
    pub fn kind(&self) -> StepKind
        ensures { result ≡ self.now.kind }
    {
        self.kind
    }

    /// Its identifier, 0 in DRAT.
    pub fn id(&self) -> u64
        ensures value { result ≡ self.now.id }
        ensures limit { IsTrue (is_small result) }
    {
        self.id
    }

    /// Its literals in written order.
    pub fn lits(&self) -> &[Lit]
        ensures { result.now ≡ self.now.lits }
    {
        self.lits.as_slice()
    }

    /// The clause and the set that its literals list, as [`parts_of`] has them.
    pub fn parts(&self) -> (&[Lit], &[Lit])
        ensures clause { result.0.now ≡ clause_part self.now.lits }
        ensures set { result.1.now ≡ witness_part self.now.lits }
    {
        parts_of(self.lits())
    }

    /// Its hints, or the identifiers that it deletes, in written order.
    pub fn hints(&self) -> &[i64]
        ensures value { result.now ≡ self.now.hints }
        ensures limits { IsTrue (list_all (is_hint self.now.kind) result.now) }
    {
        self.hints.as_slice()
    }

    // An addition without literals and hints.
    pub(crate) fn name(&mut self, id: u64)
        requires { IsTrue (is_small id) }
        ensures { self.new ≡ named id }
    {
        self.kind = StepKind::Add;
        self.id = id;
        self.lits.clear();
        self.hints.clear();
    }

    // A deletion under the same identifier.
    pub(crate) fn delete(&mut self)
        ensures { self.new ≡ deleting self.old }
    {
        self.kind = StepKind::Delete;
        self.lits.clear();
        self.hints.clear();
    }

    pub(crate) fn push_literal(&mut self, lit: Lit) -> Result<(), OutOfMemory>
        ensures { OnOk result (self.new ≡ with_literal self.old lit) }
    {
        self.lits.push(lit)?;
        Ok(())
    }

    pub(crate) fn push_hint(&mut self, hint: i64) -> Result<(), OutOfMemory>
        requires { IsTrue (is_hint self.old.kind hint) }
        ensures { OnOk result (self.new ≡ with_hint self.old hint) }
    {
        self.hints.push(hint)?;
        Ok(())
    }
}
