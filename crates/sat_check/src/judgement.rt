//! What a model makes of a formula.

ghost use Rattle.std.specs.Prelude.{◌≡◌};
ghost use Rattle.sat_check.specs.Code.Judging.{unmet_in};

/// What a model makes of the clauses of a formula.
#[derive(Clone, Copy, Debug, PartialEq, Eq)]
pub enum Judgement {
    /// It meets all of them, which are so many.
    Met(u64),
    /// The clause of this number, from 1, is the first that has no true literal.
    Unmet(u64),
}

impl Judgement {
    /// The number of the clause that has no true literal, if there is one.
    pub(crate) fn unmet(self) -> Option<u64>
        ensures { result ≡ unmet_in self }
    {
        match self {
            Judgement::Met(_) => None,
            Judgement::Unmet(number) => Some(number),
        }
    }
}
