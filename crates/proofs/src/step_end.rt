//! Where a step ends.

use cnf_base::Place;

/// Where the `0` stands that ends a step.
#[derive(Clone, Copy, Debug, PartialEq, Eq)]
pub enum StepEnd {
    /// A place of a text.
    Text(Place),
    /// The number of a byte of a binary proof, from 1 up to `u64::MAX`.
    Byte(u64),
}
