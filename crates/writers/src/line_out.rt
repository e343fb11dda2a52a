//! Lines out: each of fewer than 128 bytes in one write with its line feed.
ghost use Rattle.std.specs.Prelude.{◌≡◌, true, false, [], ◌∷◌, ◌++◌, Bool, List, ℕ, IsTrue, OnOk};
ghost use Rattle.std.specs.Prelude.{OnErr};
ghost use Rattle.std.specs.Io.KnownBytes.{Appends};
ghost use Rattle.cnf_base.specs.Printing.{line_of};
ghost use Rattle.writers.specs.Lines.{Writes, unbroken_sink};
ghost use Rattle.writers.specs.Code.Lines.{AppendsPart};

use crate::{Out, WriteFailed};
use std::marker::Model;

const ROOM: usize = 128;

/// Writes lines, up to the first failure. A line of fewer than 128 bytes goes to the writer in one
/// call with its line feed.
#[derive(Drop)]
pub struct LineOut<W: Out> {
    writer: W,
    is_broken: bool,
}

impl<W: Out> Model for LineOut<W> {
    ghost use Rattle.std.specs.Prelude.{◌≡◌, true};
    ghost use Rattle.writers.specs.Lines.{Sink};

    ghost Value = { Sink };

    ghost view = { λ s. record {
      held = W.held s.writer;
      has_failed = W.has_failed s.writer;
      is_flushed = W.is_flushed s.writer;
      borrows = W.borrows s.writer;
      is_broken = s.is_broken;
    } };

    ghost invariant = { λ s. s.is_broken ≡ true → W.has_failed s.writer ≡ true };
}

impl<W: Out> LineOut<W> {
    pub fn new(writer: W) -> Self
        ensures { result ≡ unbroken_sink (W.held writer) (W.has_failed writer)
            (W.is_flushed writer) (W.borrows writer) }
    {
        LineOut {
            writer,
            is_broken: false,
        }
    }

    /// Writes the bytes and a line feed.
    pub fn line(&mut self, bytes: &[u8]) -> Result<(), WriteFailed>
        ensures writes { Writes self.old self.new (line_of bytes.now) }
        ensures ok { OnOk result
            ((self.new.is_broken ≡ false) × (self.new.has_failed ≡ self.old.has_failed)) }
        ensures err { OnErr result
            ((self.new.is_broken ≡ true) × (self.new.has_failed ≡ true)) }
    {
        let end = bytes.len();
        if end < ROOM {
            let mut room = [0; ROOM];
            room[..end].copy_from_slice(bytes);
            room[end] = b'\n';
            return self.write(&room[..end + 1]);
        }
        self.write(bytes)?;
        self.write(b"\n")
    }

    /// Flushes the writer.
    pub fn finish(&mut self) -> Result<(), WriteFailed>
        ensures writes { Writes self.old self.new [] }
        ensures ok { OnOk result
            ((self.new.is_broken ≡ false) × (self.new.has_failed ≡ self.old.has_failed)) }
        ensures flushed { OnOk result (self.new.is_flushed ≡ true) }
        ensures err { OnErr result
            ((self.new.is_broken ≡ true) × (self.new.has_failed ≡ true)) }
    {
        if self.is_broken {
            return Err(WriteFailed);
        }
        if self.writer.flush().is_err() {
            self.is_broken = true;
            return Err(WriteFailed);
        }
        Ok(())
    }

    /// Gives the writer back.
    pub fn release(self) -> W
        ensures held { W.held result ≡ self.held }
        ensures mark { W.has_failed result ≡ self.has_failed }
        ensures flushed { W.is_flushed result ≡ self.is_flushed }
        ensures same_writer { W.borrows result ≡ self.borrows }
    {
        self.writer
    }

    fn write(&mut self, bytes: &[u8]) -> Result<(), WriteFailed>
        ensures writes { Writes self.old self.new bytes.now }
        ensures ok { OnOk result
            ((self.new.is_broken ≡ false) × (self.new.has_failed ≡ self.old.has_failed)) }
        ensures err { OnErr result
            ((self.new.is_broken ≡ true) × (self.new.has_failed ≡ true)) }
    {
        if self.is_broken || !write_whole(&mut self.writer, bytes) {
            self.is_broken = true;
            return Err(WriteFailed);
        }
        Ok(())
    }
}

// Whether all of the bytes were taken.
fn write_whole<W: Out>(writer: &mut W, bytes: &[u8]) -> bool
    ensures whole { result ≡ true → Appends (W.held writer.old) (W.held writer.new) bytes.now }
    ensures part { AppendsPart (W.held writer.old) (W.held writer.new) bytes.now }
    ensures ok { result ≡ true → W.has_failed writer.new ≡ W.has_failed writer.old }
    ensures err { result ≡ false → W.has_failed writer.new ≡ true }
    ensures same_writer { W.borrows writer.new ≡ W.borrows writer.old }
{
    let mut at = 0;
    while at < bytes.len() {
        match writer.write(&bytes[at..]) {
            Ok(0) => return false,
            Ok(n) => at += n,
            Err(_) => return false,
        }
    }
    true
}
