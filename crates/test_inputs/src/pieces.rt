//! A reader in memory, and the bytes that are read from it.
ghost use Rattle.std.specs.Prelude.{◌≤◌};

use crate::Cut;
use cnf_base::{FromRead, OutOfMemory, Source};
use std::alloc::Global;
use std::io;
use std::io::Read;

/// The pieces in which each input is handed out.
pub const SIZES: [usize; 4] = [1, 2, 7, 4096];

// What a reader would give after its end or its failure. Nobody may ask.
const MORE: &[u8] = b" 7 ? 0\n";

/// Gives pieces of at most `size` bytes, and then once the end or a failure. It counts.
#[derive(Drop)]
pub struct Pieces<'a> {
    rest: &'a [u8],
    size: usize,
    cut: Cut,
    is_over: bool,
    /// How often it was asked.
    pub reads: usize,
}

impl<'a> Pieces<'a> {
    /// Over the bytes of a text.
    pub fn new(text: &'a str, size: usize, cut: Cut) -> Pieces<'a> {
        Pieces::of_bytes(text.as_bytes(), size, cut)
    }

    /// Over these bytes.
    pub fn of_bytes(bytes: &'a [u8], size: usize, cut: Cut) -> Pieces<'a> {
        Pieces {
            rest: bytes,
            size,
            cut,
            is_over: false,
            reads: 0,
        }
    }

    /// How many bytes were not handed out.
    pub fn left(&self) -> usize {
        self.rest.len()
    }
}

impl Read for Pieces<'_> {
    fn read(&mut self, buf: &mut [u8]) -> io::Result<usize> {
        self.reads = self.reads.saturating_add(1);
        if self.rest.is_empty() && !self.is_over {
            self.rest = MORE;
            self.is_over = true;
            return match self.cut {
                Cut::Ends => Ok(0),
                Cut::Fails => Err(io::Error::from(io::ErrorKind::Interrupted)),
            };
        }
        let most = buf.len().min(self.size);
        self.rest.read(&mut buf[..most])
    }
}

/// A source over such a reader.
pub type Bytes<'a> = Source<FromRead<Pieces<'a>>>;

/// A source over these bytes, in pieces of this size.
pub fn open<'a>(
    alloc: Global,
    bytes: &'a [u8],
    size: usize,
    cut: Cut,
) -> Result<Bytes<'a>, OutOfMemory> {
    match Source::new(alloc, FromRead::new(Pieces::of_bytes(bytes, size, cut))) {
        Ok(source) => Ok(source),
        Err((refused, _)) => Err(refused),
    }
}
