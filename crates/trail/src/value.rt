//! Values of literals.

/// What a partial assignment says of a literal.
#[derive(Clone, Copy, Debug, PartialEq, Eq)]
pub enum Value {
    /// The literal was set.
    True,
    /// Its complement was set.
    False,
    /// Neither was set.
    Open,
}
