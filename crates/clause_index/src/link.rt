//! The link of a slot.

/// A slot in its chain.
#[derive(Clone, Copy)]
pub(crate) struct Link {
    /// The hash of its clause.
    pub(crate) hash: u32,
    /// The slot that comes after it, or `NONE`. One that nothing holds has itself, and one that
    /// waits for its chain has `NONE`.
    pub(crate) next: u32,
}

/// No slot.
pub(crate) const NONE: u32 = 4294967295;
