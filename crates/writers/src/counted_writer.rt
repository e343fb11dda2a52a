//! The lowest writer: one of the standard library, with a count of its calls.
//!
//! That it asks once is tested: no contract of `std::io::Write` says what was asked.
ghost use Rattle.std.specs.Prelude.{◌≡◌};
ghost use Rattle.std.specs.Io.{WritesAtMost};
ghost use Rattle.std.specs.Io.KnownBytes.{Keeps, WriteAppends};
ghost use Rattle.writers.specs.Calls.{flushed_once, none_handed, written_once};

use std::io;
use std::io::Write;
use std::marker::Model;

/// A writer of the standard library, which counts its calls and keeps its last answers.
#[derive(Drop)]
pub struct CountedWriter<W: Write> {
    inner: W,
    writes: u64,
    piece: usize,
    write_answer: Option<io::Result<usize>>,
    flushes: u64,
    flush_answer: Option<io::Result<()>>,
}

impl<W: Write> Model for CountedWriter<W> {
    ghost use Rattle.writers.specs.Calls.{StdWriter};

    ghost Value = { StdWriter };

    ghost view = { λ w. record {
      held = W.contents w.inner;
      handed = record {
        writes = w.writes;
        piece = w.piece;
        write_answer = w.write_answer;
        flushes = w.flushes;
        flush_answer = w.flush_answer;
      };
    } };
}

impl<W: Write> CountedWriter<W> {
    /// A writer that was not asked so far.
    pub fn new(inner: W) -> Self
        ensures { result ≡ record { held = W.contents inner; handed = none_handed } }
    {
        CountedWriter {
            inner,
            writes: 0,
            piece: 0,
            write_answer: None,
            flushes: 0,
            flush_answer: None,
        }
    }

    /// Asks the writer once to take the piece.
    pub fn write(&mut self, buf: &[u8]) -> io::Result<usize>
        ensures bound { WritesAtMost result buf.now }
        ensures bytes { WriteAppends self.old.held self.new.held result buf.now }
        ensures handed { self.new.handed ≡ written_once self.old.handed buf.now result }
    {
        let result = self.inner.write(buf);
        self.writes = self.writes.wrapping_add(1);
        self.piece = buf.len();
        self.write_answer = Some(result);
        result
    }

    /// Asks the writer once to hand on what it holds back.
    pub fn flush(&mut self) -> io::Result<()>
        ensures bytes { Keeps self.old.held self.new.held }
        ensures handed { self.new.handed ≡ flushed_once self.old.handed result }
    {
        let result = self.inner.flush();
        self.flushes = self.flushes.wrapping_add(1);
        self.flush_answer = Some(result);
        result
    }
}
