//! Where a word of a DRAT step stands: at the start, where a `d` may, or among the literals.

/// Where a word of a step stands.
#[derive(Clone, Copy)]
pub enum DratPart {
    Start,
    Literals,
}
