//! How much is known of the literals that are true with nothing assumed.

ghost use Rattle.std.specs.Prelude.{◌≡◌, if◌then◌else◌};
ghost use Rattle.root_literals.specs.Roots.{lacks_units};
ghost use Rattle.root_literals.specs.declared.kept.Kept.TheVariants.{WithUnits, WithoutUnits};

/// What is known of the literals that are true with nothing assumed.
#[derive(Clone, Copy)]
pub enum Kept {
    /// Some are kept, and those that were visited are propagated. Literals of unit clauses may be
    /// missing.
    WithoutUnits,
    /// The same, and none of these is missing.
    WithUnits,
    /// All are kept.
    All,
    /// All literals of the clause in this slot are false.
    Conflict(u32),
}

impl Kept {
    /// With one more literal that is kept, where no conflict is.
    pub(crate) fn with_more(self) -> Self
        ensures { result ≡ (if lacks_units self then WithoutUnits else WithUnits) }
    {
        match self {
            Kept::WithoutUnits => Kept::WithoutUnits,
            _ => Kept::WithUnits,
        }
    }
}
