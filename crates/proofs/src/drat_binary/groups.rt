//! A number of binary DRAT while it is read: its groups of 7 bits, the lowest first.

ghost use Rattle.std.specs.Prelude.{◌≡◌, ℕ, List, [], ◌∷◌, ◌++◌};
ghost use Rattle.proofs.specs.Code.BinaryMoves.{KeepsGroups};

/// What is kept of a number's bytes so far: the number of the first one, the sum of the groups, and
/// what one in the next group counts. The sum and the weight go up to `u64::MAX`.
#[derive(Clone, Copy)]
pub struct Groups {
    pub first: u64,
    pub value: u64,
    weight: u64,
}

impl Groups {
    pub fn new(first: u64) -> Self
        ensures first { result.first ≡ first }
        ensures empty { KeepsGroups result [] }
    {
        Groups {
            first,
            value: 0,
            weight: 1,
        }
    }

    /// With one more byte.
    pub fn with(self, byte: u8) -> Self
        ensures first { result.first ≡ self.first }
        ensures more { (bytes : List ℕ) → KeepsGroups self bytes →
            KeepsGroups result (bytes ++ byte ∷ []) }
    {
        let group = u64::from(byte % 128);
        Groups {
            first: self.first,
            value: self.value.saturating_add(group.saturating_mul(self.weight)),
            weight: self.weight.saturating_mul(128),
        }
    }
}
