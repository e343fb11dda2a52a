//! The lowest reader: one of the standard library, with a count of its calls.
//!
//! That it asks once is tested: no contract of `std::io::Read` says what was asked.
ghost use Rattle.std.specs.Prelude.{◌≡◌};
ghost use Rattle.std.specs.Io.{ReadsAtMost};
ghost use Rattle.std.specs.Io.KnownBytes.{ReadConsumes};
ghost use Rattle.cnf_base.specs.Calls.{no_reads, read_once};

use std::io;
use std::io::Read;
use std::marker::Model;

/// A reader of the standard library, which counts its calls and keeps its last answer.
#[derive(Drop)]
pub struct CountedReader<R: Read> {
    inner: R,
    calls: u64,
    room: usize,
    answer: Option<io::Result<usize>>,
}

impl<R: Read> Model for CountedReader<R> {
    ghost use Rattle.cnf_base.specs.Calls.{StdReader};

    ghost Value = { StdReader };

    ghost view = { λ r. record {
      left = R.remaining r.inner;
      reads = record { calls = r.calls; room = r.room; answer = r.answer };
    } };
}

impl<R: Read> CountedReader<R> {
    /// A reader that was not asked so far.
    pub fn new(inner: R) -> Self
        ensures { result ≡ record { left = R.remaining inner; reads = no_reads } }
    {
        CountedReader {
            inner,
            calls: 0,
            room: 0,
            answer: None,
        }
    }

    /// Asks the reader once.
    pub fn read(&mut self, buf: &mut [u8]) -> io::Result<usize>
        ensures bound { ReadsAtMost result buf.new }
        ensures bytes { ReadConsumes self.old.left self.new.left result buf.new }
        ensures reads { self.new.reads ≡ read_once self.old.reads buf.old result }
    {
        let result = self.inner.read(buf);
        self.calls = self.calls.wrapping_add(1);
        self.room = buf.len();
        self.answer = Some(result);
        result
    }
}
