//! The last bytes that were read of an input.

ghost use Rattle.std.specs.Prelude.{◌≡◌, []};

use std::marker::Model;

/// How many of them are kept.
const LIMIT: usize = 32;

/// The last bytes that were read of an input.
#[derive(Drop)]
pub struct LastBytes {
    buf: [u8; LIMIT],
    filled: usize,
}

impl Model for LastBytes {
    ghost use Rattle.std.specs.Prelude.{◌≤◌, ℕ, List, take};

    ghost Value = { List ℕ };

    ghost view = { λ l. take l.filled l.buf };

    ghost invariant = { λ l. l.filled ≤ 32 };
}

impl LastBytes {
    /// Those of an input of which nothing was read.
    pub fn new() -> Self
        ensures { result ≡ [] }
    {
        LastBytes {
            buf: [0; LIMIT],
            filled: 0,
        }
    }

    /// All of them.
    pub fn bytes(&self) -> &[u8]
        ensures { result.now ≡ self.now }
    {
        &self.buf[..self.filled]
    }

    /// These bytes were read.
    pub fn note(&mut self, bytes: &[u8]) {
        let added = &bytes[bytes.len().saturating_sub(LIMIT)..];
        let kept = self.filled.min(LIMIT - added.len());
        self.buf.copy_within(self.filled - kept..self.filled, 0);
        self.buf[kept..kept + added.len()].copy_from_slice(added);
        self.filled = kept + added.len();
    }
}
