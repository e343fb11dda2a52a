//! Writers of bytes: the trait `Out`, and writers of the standard library that meet it.
ghost use Rattle.std.specs.Prelude.{◌≡◌, ℕ, Bool, true, false, List, [], ◌∷◌, Option, OnOk, OnErr};
ghost use Rattle.std.specs.Io.{WritesAtMost};
ghost use Rattle.std.specs.Io.KnownBytes.{Keeps, WriteAppends};
ghost use Rattle.writers.specs.Calls.{flushed_once, none_handed, written_once};
ghost use Rattle.writers.specs.Marks.{marked_by_flush, marked_by_write};

use crate::counted_writer::CountedWriter;
use std::io;
use std::io::Write;
use std::marker::Model;

/// A write or a flush has failed.
#[derive(Clone, Copy, Debug, PartialEq, Eq)]
pub struct WriteFailed;

/// A writer of bytes.
pub trait Out {
    /// The bytes that the writer holds, where they are known.
    ghost held: { Self → Option (List ℕ) };

    /// Whether a write or a flush has failed so far. A write that takes nothing of a piece that
    /// isn't empty is a failure.
    ghost has_failed: { Self → Bool };

    /// Whether a flush has succeeded since the last write.
    ghost is_flushed: { Self → Bool };

    /// The borrows that it goes through, so that a writer is known again.
    ghost borrows: { Self → List ℕ } = { λ _. [] };

    /// Takes bytes from the front of the buffer, and answers how many.
    fn write(&mut self, buf: &[u8]) -> io::Result<usize>
        ensures bound { WritesAtMost result buf.now }
        ensures bytes { WriteAppends (held self.old) (held self.new) result buf.now }
        ensures mark { has_failed self.new ≡
            marked_by_write (has_failed self.old) buf.now result }
        ensures unflushed { is_flushed self.new ≡ false }
        ensures same_writer { borrows self.new ≡ borrows self.old };

    /// Hands on what the writer still holds back.
    fn flush(&mut self) -> io::Result<()>
        ensures bytes { Keeps (held self.old) (held self.new) }
        ensures mark { has_failed self.new ≡ marked_by_flush (has_failed self.old) result }
        ensures flushed { OnOk result (is_flushed self.new ≡ true) }
        ensures unflushed { OnErr result (is_flushed self.new ≡ is_flushed self.old) }
        ensures same_writer { borrows self.new ≡ borrows self.old };
}

impl<W: Out> Out for &mut W {
    ghost held = { λ w. W.held w.now };

    ghost has_failed = { λ w. W.has_failed w.now };

    ghost is_flushed = { λ w. W.is_flushed w.now };

    ghost borrows = { λ w. w.ghost_name ∷ W.borrows w.now };

    fn write(&mut self, buf: &[u8]) -> io::Result<usize> {
        Out::write(&mut **self, buf)
    }

    fn flush(&mut self) -> io::Result<()> {
        Out::flush(&mut **self)
    }
}

/// A writer of the standard library, which remembers whether a write or a flush has failed, and
/// whether a flush has succeeded since the last write.
#[derive(Drop)]
pub struct ToWrite<W: Write> {
    below: CountedWriter<W>,
    has_failed: bool,
    is_flushed: bool,
}

impl<W: Write> Model for ToWrite<W> {
    ghost use Rattle.writers.specs.Calls.{OverStdWriter};

    ghost Value = { OverStdWriter };

    ghost view = { λ w. record {
      held = w.below.held;
      has_failed = w.has_failed;
      is_flushed = w.is_flushed;
      below = w.below.handed;
    } };
}

impl<W: Write> ToWrite<W> {
    /// A writer of which no call has failed. It takes no memory.
    pub fn new(inner: W) -> Self
        ensures held { ⟦<ToWrite<W> as Out>⟧.held result ≡ W.contents inner }
        ensures mark { ⟦<ToWrite<W> as Out>⟧.has_failed result ≡ false }
        ensures unflushed { ⟦<ToWrite<W> as Out>⟧.is_flushed result ≡ false }
        ensures below { result.below ≡ none_handed }
    {
        ToWrite {
            below: CountedWriter::new(inner),
            has_failed: false,
            is_flushed: false,
        }
    }
}

impl<W: Write> Out for ToWrite<W> {
    ghost held = { λ w. w.held };

    ghost has_failed = { λ w. w.has_failed };

    ghost is_flushed = { λ w. w.is_flushed };

    // It asks the one below once, and its answer is the answer.
    fn write(&mut self, buf: &[u8]) -> io::Result<usize>
        ensures bound { WritesAtMost result buf.now }
        ensures bytes { WriteAppends self.old.held self.new.held result buf.now }
        ensures mark { self.new.has_failed ≡
            marked_by_write self.old.has_failed buf.now result }
        ensures unflushed { self.new.is_flushed ≡ false }
        ensures below { self.new.below ≡ written_once self.old.below buf.now result }
    {
        self.is_flushed = false;
        let result = self.below.write(buf);
        match &result {
            Ok(0) if !buf.is_empty() => self.has_failed = true,
            Ok(_) => {}
            Err(_) => self.has_failed = true,
        }
        result
    }

    fn flush(&mut self) -> io::Result<()>
        ensures bytes { Keeps self.old.held self.new.held }
        ensures mark { self.new.has_failed ≡ marked_by_flush self.old.has_failed result }
        ensures flushed { OnOk result (self.new.is_flushed ≡ true) }
        ensures unflushed { OnErr result (self.new.is_flushed ≡ self.old.is_flushed) }
        ensures below { self.new.below ≡ flushed_once self.old.below result }
    {
        let result = self.below.flush();
        match &result {
            Ok(()) => self.is_flushed = true,
            Err(_) => self.has_failed = true,
        }
        result
    }
}
