//! Why a call of a session is refused.

ghost use Rattle.std.specs.Prelude.{◌≡◌};
ghost use Rattle.theory.specs.declared.refusal.Refusal.TheVariants.{OutOfMemory as RefusedMemory};

use cnf_base::{Lit, OutOfMemory};

/// Why a step, or a clause of the formula, was refused.
#[derive(Clone, Copy, Debug, PartialEq, Eq)]
pub enum Refusal {
    /// The session had ended.
    Ended,
    /// The empty clause, which lacks reverse unit propagation.
    NotRup,
    /// A clause that is neither RUP nor RAT on this literal, its first one.
    NeitherRupNorRat(Lit),
    /// A deletion of a clause that is not alive.
    NotAlive,
    /// A listed set that holds a literal and its complement.
    InconsistentSet,
    /// A clause that is neither RUP nor PR by the set that it lists.
    NeitherRupNorPr,
    /// An identifier that is not above all earlier ones.
    IdOutOfOrder,
    /// An identifier under which no clause is alive.
    UnknownId(u64),
    /// A hint whose clause has two literals or more left.
    NotUnit(u64),
    /// The empty clause, where the hints end without a conflict.
    NoConflict,
    /// A group's clause, which lacks the complement of the pivot.
    NotCandidate(u64),
    /// A group's clause that an earlier group named.
    NamedTwice(u64),
    /// A group whose hints end without a conflict.
    GroupWithoutConflict(u64),
    /// A clause that holds the complement of the pivot and that no group names.
    Unnamed(u64),
    /// A growth of memory was refused.
    OutOfMemory,
}

impl From<OutOfMemory> for Refusal {
    ghost from_gives = { λ _ r. r ≡ RefusedMemory };

    fn from(_refused: OutOfMemory) -> Refusal {
        Refusal::OutOfMemory
    }
}
