//! What a token says.

/// A number: its sign, and its size up to `u64::MAX`.
#[derive(Clone, Copy, Debug, PartialEq, Eq)]
pub struct Number {
    pub is_negative: bool,
    pub size: u64,
}

/// What a run of bytes without separators says.
#[derive(Clone, Copy, Debug, PartialEq, Eq)]
pub enum Word {
    /// `0`, or an optional `-` and digits without a leading zero.
    Number(Number),
    /// `p`
    P,
    /// `cnf`
    Cnf,
    /// `d`
    D,
    /// `s`
    S,
    /// `v`
    V,
    /// `SATISFIABLE`
    Satisfiable,
    /// `UNSATISFIABLE`
    Unsatisfiable,
    /// `UNKNOWN`
    Unknown,
    /// Any other run.
    Other,
}
