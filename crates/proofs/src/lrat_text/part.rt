//! Where a word of an LRAT step stands: identifier, literals, hints or deleted identifiers.

/// Where a word of a step stands.
#[derive(Clone, Copy)]
pub enum LratPart {
    Identifier,
    AfterIdentifier,
    Literals,
    Hints,
    Deletion,
}
