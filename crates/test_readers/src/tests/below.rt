//! What a reader and a writer of the standard library are asked, call by call.
ghost use Rattle.std.specs.Prelude.{◌≤◌, IfOk};

use cnf_base::{FromRead, In};
use std::io;
use std::io::{ErrorKind, Read, Write};
use std::test::Fail;
use test_inputs::{expect_equal_at, expect_true_at};
use writers::{Out, ToWrite};

/// What the one below answers to a call: a count of bytes, or an error.
#[derive(Clone, Copy, Debug, PartialEq, Eq)]
enum Answer {
    Count(usize),
    Fails,
}

impl Answer {
    // The answer to a call with so many bytes.
    fn given(self, room: usize) -> io::Result<usize>
        ensures { IfOk result (λ n. n ≤ room) }
    {
        match self {
            Answer::Count(count) => Ok(count.min(room)),
            Answer::Fails => Err(io::Error::from(ErrorKind::StorageFull)),
        }
    }
}

/// Answers as it is told, and counts. Its answers go on after an end and after a failure.
#[derive(Drop)]
struct Scripted<'a> {
    answers: &'a [Answer],
    calls: usize,
    flushes: usize,
    bytes: usize,
}

impl<'a> Scripted<'a> {
    fn new(answers: &'a [Answer]) -> Scripted<'a> {
        Scripted {
            answers,
            calls: 0,
            flushes: 0,
            bytes: 0,
        }
    }

    // The answer to one more call, which has so many bytes.
    fn answer(&mut self, bytes: usize) -> Answer {
        let answer = self.answers.get(self.calls).copied();
        self.calls = self.calls.saturating_add(1);
        self.bytes = self.bytes.saturating_add(bytes);
        answer.unwrap_or(Answer::Fails)
    }
}

impl Read for Scripted<'_> {
    fn read(&mut self, buf: &mut [u8]) -> io::Result<usize> {
        self.answer(buf.len()).given(buf.len())
    }
}

impl Write for Scripted<'_> {
    fn write(&mut self, buf: &[u8]) -> io::Result<usize> {
        self.answer(buf.len()).given(buf.len())
    }

    fn flush(&mut self) -> io::Result<()> {
        self.flushes = self.flushes.saturating_add(1);
        match self.answer(0) {
            Answer::Count(_) => Ok(()),
            Answer::Fails => Err(io::Error::from(ErrorKind::StorageFull)),
        }
    }
}

const ENDS: [Answer; 3] = [Answer::Count(1), Answer::Count(0), Answer::Count(1)];

const FAILS: [Answer; 3] = [Answer::Count(3), Answer::Fails, Answer::Count(1)];

// What the one below answers, how often is read, the last read's answer, and the calls below.
const READS: [([Answer; 3], usize, Option<usize>, usize); 6] = [
    (ENDS, 1, Some(1), 1),
    (ENDS, 2, Some(0), 2),
    (ENDS, 4, Some(0), 2),
    (FAILS, 1, Some(3), 1),
    (FAILS, 2, None, 2),
    (FAILS, 4, None, 2),
];

// The last answer of so many reads, each with room for five bytes, and the error that came.
fn read_times(below: &mut Scripted<'_>, times: usize) -> (Option<usize>, Option<ErrorKind>) {
    let mut reader = FromRead::new(below);
    let mut last = None;
    for _ in 0..times {
        last = reader.read(&mut [0; 5]).ok();
    }
    (last, reader.failure().map(|error| error.kind()))
}

// A reader is asked once a read, for as much, and no more once it gave its end or an error.
#[test]
fn reads_below(rt: HostRuntime) -> Result<(), Fail> {
    for (answers, times, last, calls) in READS {
        let mut below = Scripted::new(&answers);
        let (found, error) = read_times(&mut below, times);
        expect_equal_at(times, found, last)?;
        expect_equal_at(times, error.is_some(), last.is_none())?;
        expect_true_at(
            times,
            error.is_none_or(|kind| kind == ErrorKind::StorageFull),
        )?;
        expect_equal_at(times, below.calls, calls)?;
        expect_equal_at(times, below.bytes, calls.saturating_mul(5))?;
    }
    Ok(())
}

// What the one below answers to a write, a flush, a write and a flush.
const WRITTEN: [Answer; 4] = [
    Answer::Count(2),
    Answer::Fails,
    Answer::Count(1),
    Answer::Fails,
];

// The last answer of so many of these calls, each write of three bytes: how many it took.
fn write_times(below: &mut Scripted<'_>, times: usize) -> Option<usize> {
    let mut writer = ToWrite::new(below);
    let mut last = None;
    for call in 0..times {
        last = if call % 2 == 0 {
            writer.write(b"abc").ok()
        } else {
            writer.flush().ok().map(|()| 0)
        };
    }
    last
}

// How many calls are made, the last one's answer, and the flushes below and the bytes that were to
// be written.
const WRITES: [(usize, Option<usize>, usize, usize); 4] = [
    (1, Some(2), 0, 3),
    (2, None, 1, 3),
    (3, Some(1), 1, 6),
    (4, None, 2, 6),
];

// A writer is asked once a call, with the same bytes, also after a failure.
#[test]
fn writes_below(rt: HostRuntime) -> Result<(), Fail> {
    for (times, last, flushes, bytes) in WRITES {
        let mut below = Scripted::new(&WRITTEN);
        let found = write_times(&mut below, times);
        expect_equal_at(times, found, last)?;
        expect_equal_at(times, below.calls, times)?;
        expect_equal_at(times, below.flushes, flushes)?;
        expect_equal_at(times, below.bytes, bytes)?;
    }
    Ok(())
}
