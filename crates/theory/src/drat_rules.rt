//! What the rule of DRAT leaves open, as one value.
//!
//! It goes from the options through the session to the definition of a step, so that a further rule
//! is one more field.

/// Which rules a DRAT proof is checked by, where tools differ.
#[derive(Clone, Copy, Debug, PartialEq, Eq)]
pub struct DratRules {
    /// Whether a deletion of a clause that is not alive is refused, and not ignored.
    pub strict: bool,
    /// Whether an addition may list a set after its clause, by which it may be propagation
    /// redundant (PR).
    pub pr: bool,
    /// Whether a deletion of a live clause that is the reason of a root-level literal is ignored.
    pub keep_units: bool,
}
