//! The source of an input: its bytes one at a time, with their places, read by the piece.
ghost use Rattle.std.specs.Prelude.{◌≡◌, ◌≢◌, ◌+◌, ◌<◌, ◌≤◌, ◌==◌, true, false, [], length};
ghost use Rattle.std.specs.Prelude.{slice_index, take, Some, IsSome, IfSome, IfNone, IfOk, IfErr};
ghost use Rattle.std.specs.Prelude.{OnOk, OnErr};
ghost use Rattle.std.specs.Io.KnownBytes.{Keeps, Consumes, IsAtEnd};
ghost use Rattle.cnf_base.specs.Stream.{IsLook, IsSilent, Shows, most_to_come, tells_failure};
ghost use Rattle.cnf_base.specs.Stream.{bumped, skipped, unread_stream};

use crate::{Ending, In, OutOfMemory, Piece, Place, ReadFailed};
use std::alloc::Global;
use std::marker::Model;

/// The bytes of an input in order, with their places.
#[derive(Drop)]
pub struct Source<R: In> {
    reader: R,
    piece: Vec<u8>,
    at: usize,
    end: usize,
    met: Option<Ending>,
    line: u64,
    // The column of the byte at `from`, from which on the piece has no line feed up to `at`.
    col: u64,
    from: usize,
    // The number of the piece's first byte.
    byte_no: u64,
}

impl<R: In> Model for Source<R> {
    ghost use Rattle.std.specs.Prelude.{◌-◌, slice_range};
    ghost use Rattle.cnf_base.specs.Stream.{Stream, more_count};
    ghost use Rattle.cnf_base.specs.Code.Stream.{IsSource};

    ghost Value = { Stream };

    ghost view = { λ s. record {
      ahead = slice_range s.piece.items s.at s.end;
      met = s.met;
      reader = R.shown s.reader;
      borrows = R.borrows s.reader;
      place = record { line = s.line; col = more_count s.col (s.at - s.from) };
      byte_no = more_count s.byte_no s.at;
    } };

    ghost invariant = { λ s.
        IsSource s.piece.items s.from s.at s.end s.met (R.shown s.reader) s.col };
}

impl<R: In> Source<R> {
    /// A source of which nothing was read, over room that was made for it. It takes no memory.
    pub fn over(piece: Piece, reader: R) -> Self
        ensures { result ≡ unread_stream (R.shown reader) (R.borrows reader) }
    {
        Source {
            reader,
            piece: piece.bytes,
            at: 0,
            end: 0,
            met: None,
            line: 1,
            col: 1,
            from: 0,
            byte_no: 1,
        }
    }

    /// A source of which nothing was read. The reader is handed back where its room is refused.
    pub fn new(alloc: Global, reader: R) -> Result<Self, (OutOfMemory, R)>
        ensures fresh { IfOk result
            (λ s. s ≡ unread_stream (R.shown reader) (R.borrows reader)) }
        ensures refused { IfErr result (λ e. e.1 ≡ reader) }
    {
        match Piece::new(alloc) {
            Ok(piece) => Ok(Source::over(piece, reader)),
            Err(refused) => Err((refused, reader)),
        }
    }

    /// The next byte, if there is one. It reads only where the piece is used up.
    #[inline(always)]
    #[tactic(auto, using(crate::proofs::StreamLemmas::looked))]
    pub fn peek(&mut self) -> Result<Option<u8>, ReadFailed>
        ensures look { IsLook self.old self.new }
        ensures count { most_to_come self.new ≡ most_to_come self.old }
        ensures shown { Shows result self.new }
        ensures most { length self.new.ahead ≤ 65536 }
        ensures failed { OnErr result (tells_failure self.new.reader ≡ true) }
        ensures mark { OnOk result
            (tells_failure self.new.reader ≡ tells_failure self.old.reader) }
    {
        if self.at == self.end {
            self.fill();
            if self.at == self.end {
                return match self.met {
                    Some(Ending::End) => Ok(None),
                    Some(Ending::Failed) => Err(ReadFailed),
                    None => unreachable!(),
                };
            }
        }
        Ok(Some(self.piece[self.at]))
    }

    #[inline(never)]
    fn fill(&mut self)
        requires { self.old.ahead ≡ [] }
        ensures look { IsLook self.old self.new }
        ensures count { most_to_come self.new ≡ most_to_come self.old }
        ensures met { self.new.ahead ≡ [] → IsSome self.new.met }
        ensures failed { self.new.met ≡ Some Ending.Failed →
            tells_failure self.new.reader ≡ true }
        ensures mark { self.new.met ≢ Some Ending.Failed →
            tells_failure self.new.reader ≡ tells_failure self.old.reader }
    {
        if self.met.is_none() {
            match read_piece(&mut self.reader, &mut self.piece) {
                Some(0) => self.met = Some(Ending::End),
                Some(n) => {
                    self.col = self.col.saturating_add((self.at - self.from) as u64);
                    self.byte_no = self.byte_no.saturating_add(self.at as u64);
                    self.from = 0;
                    self.at = 0;
                    self.end = n;
                }
                None => self.met = Some(Ending::Failed),
            }
        }
    }

    /// Takes the byte that was shown.
    #[inline(always)]
    pub fn bump(&mut self)
        requires { 0 < length self.old.ahead }
        ensures { self.new ≡ bumped self.old }
    {
        let byte = self.piece[self.at];
        self.at += 1;
        if byte == b'\n' {
            self.line = self.line.saturating_add(1);
            self.col = 1;
            self.from = self.at;
        }
    }

    // Takes the byte that was shown, where it is no line feed: one comparison less for each byte of
    // a token.
    #[inline(always)]
    pub(crate) fn bump_in_line(&mut self)
        requires ahead { 0 < length self.old.ahead }
        requires inner { (slice_index self.old.ahead 0 == 10) ≡ false }
        ensures { self.new ≡ bumped self.old }
    {
        self.at += 1;
    }

    /// The place of the next byte, or of the end.
    #[inline(always)]
    pub fn place(&self) -> Place
        ensures value { result ≡ self.now.place }
        ensures from_one { 0 < result.col }
    {
        Place {
            line: self.line,
            col: self.col.saturating_add((self.at - self.from) as u64),
        }
    }

    /// The bytes that were read and not yet taken.
    #[inline(always)]
    pub fn ahead(&self) -> &[u8]
        ensures { result.now ≡ self.now.ahead }
    {
        &self.piece[self.at..self.end]
    }

    /// Takes so many bytes at once. A line feed among them counts as a byte of its line, so that
    /// places are right only where there is none, or where no place is asked for.
    #[inline(always)]
    pub fn skip_in_line(&mut self, count: usize)
        requires { count ≤ length self.old.ahead }
        ensures { self.new ≡ skipped count self.old }
    {
        self.at += count;
    }

    /// The number of the next byte, from 1.
    pub fn byte_no(&self) -> u64
        ensures { result ≡ self.now.byte_no }
    {
        self.byte_no.saturating_add(self.at as u64)
    }

    /// Gives the reader back. Bytes that were read ahead are lost.
    pub fn release(self) -> R
        ensures reader { R.shown result ≡ self.reader }
        ensures same_reader { R.borrows result ≡ self.borrows }
    {
        self.reader
    }
}

// How many bytes a read put to the front of the piece, unless it failed.
fn read_piece<R: In>(reader: &mut R, piece: &mut Vec<u8>) -> Option<usize>
    ensures size { length piece.new.items ≡ length piece.old.items }
    ensures bound { IfSome result (λ n. n ≤ length piece.old.items) }
    ensures bytes { IfSome result (λ n.
        Consumes (R.shown reader.old).left (R.shown reader.new).left (take n piece.new.items)) }
    ensures end { IfSome result (λ n.
        n ≡ 0 → 0 < length piece.old.items → IsAtEnd (R.shown reader.new).left) }
    ensures kept { IfNone result (Keeps (R.shown reader.old).left (R.shown reader.new).left) }
    ensures failed { IfNone result ((R.shown reader.new).over ≡ Some Ending.Failed) }
    ensures over { IfSome result (λ n.
        n ≡ 0 → 0 < length piece.old.items → (R.shown reader.new).over ≡ Some Ending.End) }
    ensures going { IfSome result (λ n.
        0 < n → (R.shown reader.new).over ≡ (R.shown reader.old).over) }
    ensures mark { IfSome result (λ _.
        tells_failure (R.shown reader.new) ≡ tells_failure (R.shown reader.old)) }
    ensures silent { IfSome result (λ n.
        IsSilent (R.shown reader.old) (R.shown reader.new) (take n piece.new.items)) }
    ensures no_sound { IfNone result (IsSilent (R.shown reader.old) (R.shown reader.new) []) }
    ensures count { IfSome result (λ n.
        (R.shown reader.new).most_left + n ≡ (R.shown reader.old).most_left) }
    ensures no_count { IfNone result
        ((R.shown reader.new).most_left ≡ (R.shown reader.old).most_left) }
    ensures same_reader { R.borrows reader.new ≡ R.borrows reader.old }
{
    reader.read(piece.as_mut_slice()).ok()
}
