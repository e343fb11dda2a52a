//! The first bytes of an input, from the first line on that is neither blank nor a comment.

ghost use Rattle.std.specs.Prelude.{◌≡◌, []};

use crate::tokens::is_separator;
use std::marker::Model;

/// How many of them are kept: as a rule, the header of a formula is among them.
pub(crate) const LIMIT: usize = 1024;

/// The first bytes of an input, from the first line on that is neither blank nor a comment.
#[derive(Drop)]
pub struct FirstBytes {
    /// Whether that first line was met. Before it, `buf` has what was read of a line that is blank
    /// so far.
    begun: bool,
    /// Whether a comment is being read.
    in_comment: bool,
    buf: [u8; LIMIT],
    filled: usize,
}

impl Model for FirstBytes {
    ghost use Rattle.std.specs.Prelude.{◌≤◌, ℕ, List, [], if◌then◌else◌, take};

    ghost Value = { List ℕ };

    ghost view = { λ f. if f.begun then take f.filled f.buf else [] };

    ghost invariant = { λ f. f.filled ≤ 1024 };
}

impl FirstBytes {
    /// Those of an input of which nothing was read.
    pub fn new() -> Self
        ensures { result ≡ [] }
    {
        FirstBytes {
            begun: false,
            in_comment: false,
            buf: [0; LIMIT],
            filled: 0,
        }
    }

    /// All of them.
    pub fn bytes(&self) -> &[u8]
        ensures { result.now ≡ self.now }
    {
        if self.begun {
            &self.buf[..self.filled]
        } else {
            &[]
        }
    }

    /// These bytes were read.
    pub fn note(&mut self, bytes: &[u8]) {
        if self.begun {
            self.fill(bytes);
        } else {
            self.begin(bytes);
        }
    }

    // Goes to the first line that counts, and keeps the bytes from there on.
    fn begin(&mut self, bytes: &[u8]) {
        for (index, byte) in bytes.iter().enumerate() {
            if !self.skips(*byte) {
                self.begun = true;
                self.fill(&bytes[index..]);
                return;
            }
        }
    }

    // Whether a line goes on with this byte as one that doesn't count.
    fn skips(&mut self, byte: u8) -> bool {
        if self.in_comment {
            self.in_comment = byte != b'\n';
            return true;
        }
        if byte == b'\n' {
            self.filled = 0;
            return true;
        }
        if byte == b'c' && self.filled == 0 {
            self.in_comment = true;
            return true;
        }
        let is_blank = is_separator(byte);
        if is_blank {
            self.fill(&[byte]);
        }
        is_blank
    }

    // As many of the bytes as have room.
    fn fill(&mut self, bytes: &[u8]) {
        let count = bytes.len().min(LIMIT - self.filled);
        self.buf[self.filled..self.filled + count].copy_from_slice(&bytes[..count]);
        self.filled += count;
    }
}
