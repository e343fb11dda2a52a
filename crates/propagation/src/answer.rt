//! Answers of propagation.

/// What propagation from the assumed literals ends in.
#[derive(Clone, Copy, Debug, PartialEq, Eq)]
pub enum Answer {
    /// An empty clause is alive, or some literal and its complement are forced.
    Clash,
    /// Neither is so.
    Quiet,
}
