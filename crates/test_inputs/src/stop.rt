//! What a writer does once its room is used up.

/// What a writer does once its room is used up.
#[derive(Clone, Copy, Debug, PartialEq, Eq)]
pub enum Stop {
    TakesNone,
    Fails,
    /// One write fails, and further ones would be taken.
    FailsOnce,
}
