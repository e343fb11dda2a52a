//! An input of a program, which tells how far it is, and keeps the bytes that a hint needs.

ghost use Rattle.std.specs.Prelude.{◌≡◌, ◌+◌, ◌<◌, ◌≤◌, IfOk, length, is_some, Some};
ghost use Rattle.std.specs.Io.{ReadsAtMost};
ghost use Rattle.std.specs.Io.KnownBytes.{ReadConsumes};
ghost use Rattle.cnf_base.specs.Marks.{given_by, over_after, AnswersAgain};
ghost use Rattle.cnf_base.specs.Stream.{tells_failure};
ghost use Rattle.filter_io.specs.Origins.{reader_of};
ghost use Rattle.hints.specs.Kinds.{Shows};

use crate::origin::Origin;
use crate::progress::Progress;
use cnf_base::{Ending, In, OutOfMemory};
use hints::{Evidence, Header, Sample};
use std::alloc::Global;
use std::io::{self, Read};

/// An input of a program.
#[derive(Drop)]
pub struct Input<'a, F: Read + Drop, S: Read + Drop> {
    origin: Origin<F, S>,
    /// Its kilobyte is no burden to the stack.
    sample: Box<Sample>,
    /// Where it is told how far it is, if anywhere.
    progress: Option<&'a Progress<'a>>,
    /// How many bytes were read.
    bytes: u64,
    /// How many it has, where that is known.
    size: Option<u64>,
}

impl<'a, F: Read + Drop, S: Read + Drop> Input<'a, F, S> {
    /// An input of which nothing was read.
    pub(crate) fn new(
        alloc: Global,
        origin: Origin<F, S>,
        progress: Option<&'a Progress<'a>>,
        size: Option<u64>,
    ) -> Result<Self, OutOfMemory>
        ensures { IfOk result (λ input. input.origin ≡ origin) }
    {
        Ok(Input {
            origin,
            sample: Box::new(alloc, Sample::new())?,
            progress,
            bytes: 0,
            size,
        })
    }

    /// The error that a read gave, where one has failed.
    pub fn failure(&self) -> Option<io::Error>
        ensures { is_some result ≡ tells_failure (reader_of self.now.origin) }
    {
        self.origin.failure()
    }

    /// What it shows of itself by the bytes that are kept of it.
    pub(crate) fn shows(&self) -> Evidence
        ensures { Shows self.now.sample.value.first result.kind }
    {
        self.sample.shows()
    }

    /// What the header of a formula says, where the bytes that are kept have it.
    pub(crate) fn header(&self) -> Option<Header> {
        self.sample.header()
    }

    // How many bytes are to be read at once, of so many.
    fn piece(&self, room: usize) -> usize
        ensures at_most { result ≤ room }
        ensures some { 0 < room → 0 < result }
    {
        match self.progress {
            Some(progress) => progress.piece(room),
            None => room,
        }
    }

    // These bytes were read.
    fn note(&mut self, bytes: &[u8])
        ensures { self.new.origin ≡ self.old.origin }
    {
        self.sample.note(bytes);
        self.bytes = self.bytes.saturating_add(bytes.len() as u64);
        if let Some(progress) = self.progress {
            progress.tell(self.bytes, self.size);
        }
    }
}

// Reads to the front of the buffer, no more than so many bytes.
fn read_front<R: In>(reader: &mut R, buf: &mut [u8], room: usize) -> io::Result<usize>
    requires fits { room ≤ length buf.old }
    requires some { 0 < length buf.old → 0 < room }
    ensures bound { ReadsAtMost result buf.new }
    ensures bytes { ReadConsumes (R.shown reader.old).left (R.shown reader.new).left result
        buf.new }
    ensures over { (R.shown reader.new).over ≡
        over_after (R.shown reader.old).over buf.new result }
    ensures again { AnswersAgain (R.shown reader.old).over result }
    ensures still { (e : Ending) → (R.shown reader.old).over ≡ Some e →
        R.shown reader.new ≡ R.shown reader.old }
    ensures count { (R.shown reader.new).most_left + given_by result ≡
        (R.shown reader.old).most_left }
{
    reader.read(&mut buf[..room])
}

impl<F: Read + Drop, S: Read + Drop> In for Input<'_, F, S> {
    ghost shown = { λ i. reader_of i.origin };

    fn read(&mut self, buf: &mut [u8]) -> io::Result<usize> {
        let room = self.piece(buf.len());
        let result = read_front(&mut self.origin, buf, room);
        if let Ok(count) = result {
            self.note(&buf[..count]);
        }
        result
    }
}
