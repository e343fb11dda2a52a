//! What a check is about.

/// What is checked. The verdict's last line names a model.
#[derive(Clone, Copy, Debug, PartialEq, Eq)]
pub enum Subject {
    /// A proof that a formula has no model.
    Proof,
    /// A model of a formula.
    Model,
}
