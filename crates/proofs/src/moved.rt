//! How a step goes on after a word or a byte: at another part, or it is complete.

/// How a step goes on after a word.
pub enum Moved<P> {
    To(P),
    Complete,
}
