//! Literals that wait to be propagated, as long as others with shorter watch lists are there.
//!
//! The order is free. What follows from short lists makes literals true that long ones have for
//! blocking literals, and often there is a conflict before a long list is visited.

ghost use Rattle.std.specs.Prelude.{◌≡◌, ◌≢◌, ◌↔◌, ◌+◌, ◌<◌, ◌≤◌, length, if◌then◌else◌, true, false};
ghost use Rattle.std.specs.Prelude.{IfSome, IfNone, IsTrue, IsFalse};
ghost use Rattle.cnf_base.specs.Literals.{Literal};
ghost use Rattle.watch_lists.specs.Waiting.{count_of, waits};

use arrayvec::ArrayVec;
use cnf_base::Lit;

/// How many entries a long list has at least.
const LONG: usize = 64;

/// A literal that became false, and how many entries its list had then.
#[derive(Clone, Copy, Default, Drop)]
struct Waiter {
    l: Lit,
    entries: usize,
}

/// Literals that became false and have long lists, at most 16. It takes no memory.
///
/// Contracts see whether a literal waits, and how many do.
#[derive(Drop)]
pub struct Waiting {
    waiters: ArrayVec<Waiter, 16>,
}

/// The place of the one with the shortest list.
fn shortest(waiters: &[Waiter]) -> usize
    requires { 0 < length waiters.now }
    ensures { result < length waiters.now }
{
    let mut least = 0;
    for place in 1..waiters.len() {
        if waiters[place].entries < waiters[least].entries {
            least = place;
        }
    }
    least
}

impl Waiting {
    /// None waits.
    pub fn new() -> Self
        ensures waits { (k : Literal) → IsFalse (waits result k) }
        ensures count { count_of result ≡ 0 }
    {
        Waiting {
            waiters: ArrayVec::new(),
        }
    }

    /// Lets the literal wait where its list, of so many entries, is long and there is room, and
    /// tells whether it does.
    #[inline(always)]
    pub fn put(&mut self, l: Lit, entries: usize) -> bool
        ensures told { IsTrue result ↔ ((64 ≤ entries) × (count_of self.old < 16)) }
        ensures waits { result ≡ true → IsTrue (waits self.new l) }
        ensures others { (k : Literal) → k ≢ l → waits self.new k ≡ waits self.old k }
        ensures none { result ≡ false → self.new ≡ self.old }
        ensures count { count_of self.new ≡ count_of self.old + (if result then 1 else 0) }
    {
        entries >= LONG && self.add(Waiter { l, entries })
    }

    /// Adds one where there is room, and tells whether there is.
    #[cold]
    #[inline(never)]
    fn add(&mut self, waiter: Waiter) -> bool
        ensures told { IsTrue result ↔ (count_of self.old < 16) }
        ensures waits { result ≡ true → IsTrue (waits self.new waiter.l) }
        ensures others { (k : Literal) → k ≢ waiter.l → waits self.new k ≡ waits self.old k }
        ensures none { result ≡ false → self.new ≡ self.old }
        ensures count { count_of self.new ≡ count_of self.old + (if result then 1 else 0) }
    {
        self.waiters.try_push(waiter).is_ok()
    }

    /// Takes out the one with the shortest list, if one waits.
    #[cold]
    #[inline(never)]
    pub fn take(&mut self) -> Option<Lit>
        ensures some { IfSome result (λ l. IsTrue (waits self.old l)) }
        ensures others { IfSome result (λ l.
            (k : Literal) → k ≢ l → waits self.new k ≡ waits self.old k) }
        ensures within { (k : Literal) → IsTrue (waits self.new k) → IsTrue (waits self.old k) }
        ensures fewer { IfSome result (λ _. count_of self.new + 1 ≡ count_of self.old) }
        ensures none { IfNone result ((k : Literal) → IsFalse (waits self.old k)) }
    {
        if self.waiters.is_empty() {
            return None;
        }
        let place = shortest(self.waiters.as_slice());
        Some(self.waiters.remove(place).l)
    }
}
