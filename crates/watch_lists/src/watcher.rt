//! The entries of watch lists: the slot of a clause, a blocking literal of it, and whether it has
//! just two literals.
//!
//! Where that literal is true the clause isn't looked at. Clauses lie elsewhere in memory, so a
//! look costs far more than four bytes. The literal is the other watched one when the entry is
//! written, and again where a look finds that one true. So a clause that is passed over has a true
//! literal, whichever it is.
//!
//! Of a binary clause, one of two literals, the entry tells all: the blocking literal is the other
//! one. So a visit never looks at such a clause. The mark takes no room: it is the last bit of the
//! number that has the slot, for which 31 bits are left.

ghost use Rattle.std.specs.Prelude.{◌≡◌, ℕ, ◌+◌, ◌==◌, length, if◌then◌else◌, IsTrue, IfSome, take};
ghost use Rattle.std.specs.Prelude.{◌<◌, ◌≤◌};
ghost use Rattle.cnf_base.specs.Literals.{Clause};
ghost use Rattle.watch_lists.specs.Lists.{entries_of, marked_entries, unfit_entries};
ghost use Rattle.watch_lists.specs.Code.Lists.{code_at, code_of, entries_with};

use cnf_base::Lit;
use std::marker::Model;

/// An entry of a watch list: the slot of a clause, a literal of it, and whether it is binary, that
/// is, has just two literals. Where the literal is true, the clause need not be looked at, and a
/// binary one need never be.
///
/// It has eight bytes: the lists are what a propagation reads most.
#[derive(Clone, Copy)]
pub struct Watcher {
    /// Twice the slot, and one more for a binary clause.
    code: u32,
    blocking: Lit,
}

impl Model for Watcher {
    ghost use Rattle.std.specs.Prelude.{◌+◌, ◌*◌, ◌/◌, ◌%◌, ◌==◌, if◌then◌else◌};
    ghost use Rattle.watch_lists.specs.Entry.{Entry};
    ghost use Rattle.watch_lists.specs.Code.Entry.{code_back};

    ghost Value = { Entry };

    ghost view = { λ w. record {
      slot = w.code / 2;
      blocking = w.blocking;
      is_binary = w.code % 2 == 1;
    } };

    ghost inverse = { λ e. record {
      code = 2 * e.slot + (if e.is_binary then 1 else 0);
      blocking = e.blocking;
    } };

    ghost inverse_ok = { λ w h i. record { code = code_back w.code i; blocking = w.blocking } };
}

/// The slot and the mark in one number.
#[inline(always)]
pub(crate) fn code_of(slot: u32, is_binary: bool) -> u32
    requires { slot < 2147483648 }
    ensures { result ≡ code_of slot is_binary }
{
    if is_binary { 2 * slot + 1 } else { 2 * slot }
}

impl Watcher {
    /// The greatest slot that an entry can have.
    pub const MAX_SLOT: u32 = 2147483647;

    /// An entry for the clause in a slot.
    #[inline(always)]
    pub fn new(slot: u32, blocking: Lit, is_binary: bool) -> Self
        requires { slot < 2147483648 }
        ensures { result ≡
            record { slot = slot; blocking = blocking; is_binary = is_binary } }
    {
        let code = code_of(slot, is_binary);
        Watcher { code, blocking }
    }

    /// The same with another literal.
    #[inline(always)]
    pub fn with_blocking(self, blocking: Lit) -> Self
        ensures { result ≡ record self { blocking = blocking } }
    {
        Watcher {
            code: self.code,
            blocking,
        }
    }

    /// The slot.
    #[inline(always)]
    pub fn slot(self) -> u32
        ensures value { result ≡ self.slot }
        ensures range { result < 2147483648 }
    {
        self.code / 2
    }

    /// The slot and the mark in one number.
    #[inline(always)]
    pub(crate) fn code(self) -> u32
        ensures { result ≡ code_of self.slot self.is_binary }
    {
        self.code
    }

    /// The blocking literal.
    #[inline(always)]
    pub fn blocking(self) -> Lit
        ensures { result ≡ self.blocking }
    {
        self.blocking
    }

    /// Whether the clause is binary.
    #[inline(always)]
    pub fn is_binary(self) -> bool
        ensures { result ≡ self.is_binary }
    {
        self.code % 2 == 1
    }
}
