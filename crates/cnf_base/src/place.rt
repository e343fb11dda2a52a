//! Places of a text.

/// A line and a column, both from 1, up to `u64::MAX`. Columns count bytes.
#[derive(Clone, Copy, Debug, PartialEq, Eq)]
pub struct Place {
    pub line: u64,
    pub col: u64,
}
