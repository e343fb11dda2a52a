//! Comparisons. A test calls these where it could have a macro: it is proved many times faster so.

use std::fmt::Debug;
use std::test::Fail;

/// Fails where another value was found.
pub fn expect_equal<T: Copy + Debug + PartialEq>(found: T, expected: T) -> Result<(), Fail> {
    if found == expected {
        return Ok(());
    }
    Err(Fail::new(format_args!("found {found:?}, expected {expected:?}")))
}

/// The same. The first value tells where a failure is.
pub fn expect_equal_at<N: Copy + Debug, T: Copy + Debug + PartialEq>(
    at: N,
    found: T,
    expected: T,
) -> Result<(), Fail> {
    if found == expected {
        return Ok(());
    }
    Err(Fail::new(format_args!("at {at:?}: found {found:?}, expected {expected:?}")))
}

pub fn expect_true(holds: bool) -> Result<(), Fail> {
    expect_equal(holds, true)
}

pub fn expect_true_at<N: Copy + Debug>(at: N, holds: bool) -> Result<(), Fail> {
    expect_equal_at(at, holds, true)
}

/// Nothing that was expected came.
pub fn fail_at<N: Copy + Debug>(at: N) -> Result<(), Fail> {
    Err(Fail::new(format_args!("at {at:?}")))
}
