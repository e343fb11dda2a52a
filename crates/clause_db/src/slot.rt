//! The slots of a store.

ghost use Rattle.std.specs.Prelude.{◌≡◌, ◌+◌, ◌↔◌, is_none, IsTrue, IfSome};

use std::marker::Model;

/// Where a store keeps a clause. Contracts see it as its number.
#[derive(Clone, Copy, Debug, PartialEq, Eq)]
pub struct Slot {
    number: usize,
}

impl Model for Slot {
    ghost use Rattle.std.specs.Prelude.{ℕ};

    ghost Value = { ℕ };

    ghost view = { λ s. s.number };

    ghost inverse = { λ n. record { number = n } };
}

impl Slot {
    /// Slot 0.
    pub fn first() -> Slot
        ensures { result ≡ 0 }
    {
        Slot { number: 0 }
    }

    /// The slot after it. There is none after the last, `2^64 - 1`.
    pub fn next(self) -> Option<Slot>
        ensures last { IsTrue (is_none result) ↔ (self ≡ 18446744073709551615) }
        ensures next { IfSome result (λ slot. slot ≡ self + 1) }
    {
        match self.number.checked_add(1) {
            Some(number) => Some(Slot { number }),
            None => None,
        }
    }

    /// The slot with this number.
    pub fn at(number: usize) -> Slot
        ensures { result ≡ number }
    {
        Slot { number }
    }

    /// Its number.
    pub fn number(self) -> usize
        ensures { result ≡ self }
    {
        self.number
    }
}
