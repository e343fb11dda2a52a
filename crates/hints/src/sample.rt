//! The bytes that are kept of an input: what is told of a fault is chosen by them.
//!
//! A reader keeps them on the way, since an input that is a pipe can't be read twice.

ghost use Rattle.std.specs.Prelude.{◌≡◌, []};
ghost use Rattle.hints.specs.Kinds.{Shows};

use crate::evidence::{Evidence, evidence_of};
use crate::first_bytes::FirstBytes;
use crate::header::{Header, header_in};
use crate::last_bytes::LastBytes;

/// The bytes that are kept of an input.
#[derive(Drop)]
pub struct Sample {
    pub first: FirstBytes,
    pub last: LastBytes,
}

impl Sample {
    /// The sample of an input of which nothing was read.
    pub fn new() -> Self
        ensures first { result.first ≡ [] }
        ensures last { result.last ≡ [] }
    {
        Sample {
            first: FirstBytes::new(),
            last: LastBytes::new(),
        }
    }

    /// These bytes were read.
    pub fn note(&mut self, bytes: &[u8]) {
        self.first.note(bytes);
        self.last.note(bytes);
    }

    /// What the input shows of itself by them.
    pub fn shows(&self) -> Evidence
        ensures { Shows self.now.first result.kind }
    {
        evidence_of(self.first.bytes(), self.last.bytes())
    }

    /// What the header of a formula says, where they have it.
    pub fn header(&self) -> Option<Header> {
        header_in(self.first.bytes())
    }
}
