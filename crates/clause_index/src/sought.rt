//! What a search goes by.

ghost use Rattle.std.specs.Prelude.{◌≡◌, ℕ, Bool};

/// A test of slots: which one is sought.
pub trait Sought {
    /// Whether it is this one.
    ghost is: { Self → ℕ → Bool };

    /// Whether it is this one. It takes no memory.
    fn is_at(&self, slot: u32) -> bool
        ensures { result ≡ is self.now slot };
}
