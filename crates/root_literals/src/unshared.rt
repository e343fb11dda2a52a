//! A root-level literal that no clause has but its own unit clause, and that no other rests on.
//!
//! Where that clause is removed, the literal alone is taken back: no clause was let alone because
//! of it. Such unit clauses are left where a solver has deleted all clauses that they satisfy. A
//! cut would have everything behind the literal found again. Whether a literal rests on it is known
//! by how many clauses have the complement, and how many reasons; only where some have, the reasons
//! behind it are looked at.

ghost use Rattle.std.specs.Prelude.{◌≡◌, ◌<◌, ◌∷◌, [], length, false, Some, IsSome, IfSome};
ghost use Rattle.std.specs.FinMap as maps;
ghost use Rattle.root_literals.specs.Roots.{IsAbsent, IsUnneeded};
ghost use Rattle.root_literals.specs.Uses.{AreCounted, clause_in, is_in};
ghost use Rattle.tables.specs.ByKey.{at};

use crate::uses::{Uses, reason_of};
use clause_db::{Slot, Store};
use cnf_base::Lit;
use tables::ByKey;

/// The literal of a clause that has no other.
pub(crate) fn only_literal(clause: &[Lit]) -> Option<Lit>
    ensures { IfSome result (λ l. clause.now ≡ l ∷ []) }
{
    match clause {
        [l] => Some(*l),
        _ => None,
    }
}

/// The literal of the unit clause in the slot, where no other clause has it.
#[tactic(auto, using(crate::proofs::RootLemmas::Unshared::absent_else))]
pub(crate) fn unshared_literal(store: &Store, slot: Slot) -> Option<Lit>
    requires { IsSome (maps.get store.now.live slot) }
    ensures unit { IfSome result (λ l. maps.get store.now.live slot ≡ Some (l ∷ [])) }
    ensures alone { IfSome result (λ l.
        IsAbsent (maps.get (maps.remove store.now.live slot)) l) }
{
    let l = only_literal(store.clause(slot))?;
    if store.count_with(l) == 1 {
        Some(l)
    } else {
        None
    }
}

/// Whether the reason of a literal has the literal `k`.
fn reason_has(store: &Store, reasons: &ByKey<u32>, l: Lit, k: Lit) -> bool
    ensures { result ≡ is_in (clause_in (maps.get store.now.live) (at reasons.now l)) k }
{
    match reason_of(store, reasons, l) {
        Some(clause) => clause.contains(&k),
        None => false,
    }
}

/// Whether a literal behind this place, where `l` stands, may rest on `l`. It takes no memory.
pub(crate) fn is_needed(
    store: &Store,
    reasons: &ByKey<u32>,
    uses: &mut Uses,
    lits: &[Lit],
    place: usize,
    l: Lit,
) -> bool
    requires inside { place < length lits.now }
    requires counted { AreCounted (maps.get store.now.live) (at reasons.now) lits.now uses.old }
    ensures counted { AreCounted (maps.get store.now.live) (at reasons.now) lits.now uses.new }
    ensures unneeded { result ≡ false →
        IsUnneeded (maps.get store.now.live) (at reasons.now) lits.now place l }
{
    if store.count_with(l.neg()) == 0 {
        return false;
    }
    uses.count(store, reasons, lits);
    if uses.is_unused(store, reasons, lits, l.neg()) {
        return false;
    }
    for behind in place + 1..lits.len() {
        if reason_has(store, reasons, lits[behind], l.neg()) {
            return true;
        }
    }
    false
}
