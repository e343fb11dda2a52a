//! Slots in chains, one for the hashes with the same lower bits.

ghost use Rattle.std.specs.Prelude.{◌≡◌, ◌≢◌, ℕ, ◌<◌, ◌==◌, length, if◌then◌else◌, List, None};
ghost use Rattle.std.specs.Prelude.{Some, Option, IfSome, IfNone, true};
ghost use Rattle.cnf_base.specs.Literals.{has, size};
ghost use Rattle.clause_index.specs.Code.Chains.{AreChained, AreLinked, home, link_at};

use crate::link::Link;

/// The chain of a hash among so many.
#[inline(always)]
pub(crate) fn home_of(hash: u32, len: usize) -> usize
    requires { 0 < len }
    ensures home { result ≡ home len hash }
    ensures inside { result < len }
{
    hash as usize & (len - 1)
}

/// Puts a slot that is in no chain at the front of the chain of its hash.
#[inline(always)]
pub(crate) fn put_in(heads: &mut Vec<u32>, links: &mut Vec<Link>, slot: u32, hash: u32)
    requires some { 0 < length heads.old.items }
    requires inside { slot < length links.old.items }
    requires low { slot < 4294967295 }
    ensures chained { (held : ℕ → Option ℕ) → AreChained links.old.items heads.old.items held →
        held slot ≡ None → AreChained links.new.items heads.new.items
        (λ s. if s == slot then Some hash else held s) }
    ensures links { length links.new.items ≡ length links.old.items }
    ensures heads { length heads.new.items ≡ length heads.old.items }
    ensures others { (s : ℕ) → s ≢ slot →
        link_at links.new.items s ≡ link_at links.old.items s }
{
    let home = home_of(hash, heads.len());
    links[slot as usize] = Link {
        hash,
        next: heads[home],
    };
    heads[home] = slot;
}

/// The slot before another one in a chain; none where that is the first one.
#[tactic(auto, using(crate::proofs::IndexLemmas::Walks::walk_facts))]
pub(crate) fn before(links: &[Link], first: u32, slot: u32) -> Option<u32>
    requires { (chain : List ℕ) × AreLinked links.now first chain
        × (size chain ≡ length chain) × (has chain slot ≡ true)
        × ((s : ℕ) → has chain s ≡ true → s < length links.now) }
    ensures some { IfSome result (λ s. (chain : List ℕ) → AreLinked links.now first chain →
        size chain ≡ length chain → has chain slot ≡ true →
        (has chain s ≡ true) × ((link_at links.now s).next ≡ slot)) }
    ensures none { IfNone result (first ≡ slot) }
{
    if first == slot {
        return None;
    }
    let mut at = first;
    for _step in 0..links.len() {
        let next = links[at as usize].next;
        if next == slot {
            return Some(at);
        }
        at = next;
    }
    None
}
