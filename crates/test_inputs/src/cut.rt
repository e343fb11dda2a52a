//! How a reader goes on after its last byte.

/// How a reader goes on after its last byte: by its end, or by a failed read.
#[derive(Clone, Copy, Debug, PartialEq, Eq)]
pub enum Cut {
    Ends,
    Fails,
}
