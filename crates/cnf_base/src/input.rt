//! Readers of bytes: the trait `In`, and readers of the standard library that meet it.
ghost use Rattle.std.specs.Prelude.{◌≡◌, ◌<◌, ◌+◌, ◌-◌, ◌^◌, ℕ, List, [], ◌∷◌, None, Some, is_some};
ghost use Rattle.std.specs.Prelude.{length, Result};
ghost use Rattle.std.specs.declared.io.Error.{Error};
ghost use Rattle.std.specs.Io.{ReadsAtMost};
ghost use Rattle.std.specs.Io.KnownBytes.{ReadConsumes};
ghost use Rattle.cnf_base.specs.Calls.{below_after, last_after, last_error};
ghost use Rattle.cnf_base.specs.Calls.{no_reads, IsTooLarge};
ghost use Rattle.cnf_base.specs.Marks.{given_by, over_after, AnswersAgain};
ghost use Rattle.cnf_base.specs.Stream.{Reader, tells_failure};

use crate::counted_reader::CountedReader;
use std::io;
use std::io::Read;
use std::marker::Model;

/// How an input ends: by its end, or by a failed read.
#[derive(Clone, Copy, Debug, PartialEq, Eq)]
pub enum Ending {
    End,
    Failed,
}

/// A read has failed.
#[derive(Clone, Copy, Debug, PartialEq, Eq)]
pub struct ReadFailed;

/// A reader of bytes.
pub trait In {
    /// The bytes that it has left, where they are known, its end or its failure, where it has given
    /// that, and how many bytes may still be read of it at most, so that a loop to the end ends.
    ghost shown: { Self → Reader };

    /// The borrows that it goes through, so that a reader is known again.
    ghost borrows: { Self → List ℕ } = { λ _. [] };

    /// Puts bytes to the front of the buffer, and answers how many; none is the end, where the
    /// buffer isn't empty. Once it gave its end or an error, it answers that again, and stays as it
    /// is.
    fn read(&mut self, buf: &mut [u8]) -> io::Result<usize>
        ensures bound { ReadsAtMost result buf.new }
        ensures bytes { ReadConsumes (shown self.old).left (shown self.new).left result buf.new }
        ensures over { (shown self.new).over ≡ over_after (shown self.old).over buf.new result }
        ensures again { AnswersAgain (shown self.old).over result }
        ensures still { (e : Ending) → (shown self.old).over ≡ Some e →
            shown self.new ≡ shown self.old }
        ensures count { (shown self.new).most_left + given_by result ≡
            (shown self.old).most_left }
        ensures same_reader { borrows self.new ≡ borrows self.old };
}

impl<R: In> In for &mut R {
    ghost shown = { λ r. R.shown r.now };

    ghost borrows = { λ r. r.ghost_name ∷ R.borrows r.now };

    fn read(&mut self, buf: &mut [u8]) -> io::Result<usize> {
        In::read(&mut **self, buf)
    }
}

/// A reader of the standard library, which keeps its end or its first error. A read that might go
/// past the first `u64::MAX` bytes fails.
#[derive(Drop)]
pub struct FromRead<R: Read> {
    below: CountedReader<R>,
    // The answer that it gives from now on.
    last: Option<io::Result<usize>>,
    most_left: u64,
}

impl<R: Read> Model for FromRead<R> {
    ghost use Rattle.cnf_base.specs.Calls.{OverStdReader};
    ghost use Rattle.cnf_base.specs.Code.Marks.{ending_of, IsKept};

    ghost Value = { OverStdReader };

    ghost view = { λ r. record {
      shown = record {
        left = r.below.left;
        over = ending_of r.last;
        most_left = r.most_left;
      };
      last = r.last;
      below = r.below.reads;
    } };

    ghost invariant = { λ r. IsKept r.last r.below.left };
}

impl<R: Read> FromRead<R> {
    /// A reader that gave neither its end nor an error. It takes no memory.
    pub fn new(inner: R) -> Self
        ensures shown { result.shown ≡
            record { left = R.remaining inner; over = None; most_left = 2 ^ 64 - 1 } }
        ensures last { result.last ≡ None }
        ensures below { result.below ≡ no_reads }
    {
        FromRead {
            below: CountedReader::new(inner),
            last: None,
            most_left: u64::MAX,
        }
    }

    /// The error that it keeps, where a read has failed.
    pub fn failure(&self) -> Option<io::Error>
        ensures error { result ≡ last_error self.now.last }
        ensures failed { is_some result ≡ tells_failure self.now.shown }
    {
        match self.last {
            Some(Err(error)) => Some(error),
            _ => None,
        }
    }
}

impl<R: Read> In for FromRead<R> {
    ghost shown = { λ r. r.shown };

    // It asks the one below once, and its answer is the answer, but where the reader is over, and
    // where the read might go past the first `u64::MAX` bytes.
    fn read(&mut self, buf: &mut [u8]) -> io::Result<usize>
        ensures bound { ReadsAtMost result buf.new }
        ensures bytes { ReadConsumes self.old.shown.left self.new.shown.left result buf.new }
        ensures over { self.new.shown.over ≡ over_after self.old.shown.over buf.new result }
        ensures again { AnswersAgain self.old.shown.over result }
        ensures still { (e : Ending) → self.old.shown.over ≡ Some e → self.new ≡ self.old }
        ensures count { self.new.shown.most_left + given_by result ≡ self.old.shown.most_left }
        ensures kept { (last : Result ℕ Error) → self.old.last ≡ Some last → result ≡ last }
        ensures last { self.new.last ≡ last_after self.old.last buf.new result }
        ensures below { self.new.below ≡ below_after self.old buf.old result }
        ensures limit { self.old.shown.over ≡ None →
            self.old.shown.most_left < length buf.old → IsTooLarge result }
    {
        if let Some(last) = self.last {
            return last;
        }
        if self.most_left < buf.len() as u64 {
            let refused = Err(io::Error::from(io::ErrorKind::FileTooLarge));
            self.last = Some(refused);
            return refused;
        }
        let result = self.below.read(buf);
        match result {
            Ok(0) if buf.is_empty() => {}
            Ok(0) | Err(_) => self.last = Some(result),
            Ok(n) => self.most_left -= n as u64,
        }
        result
    }
}
