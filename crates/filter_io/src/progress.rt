//! How far a run is, told on a terminal.
//!
//! It belongs to no contract: nothing of it is in the report, and a run reads and writes the same
//! bytes with it.

ghost use Rattle.std.specs.Prelude.{◌<◌, ◌≤◌};

use crate::terminal::is_terminal;
use std::cell::Cell;
use std::time::Instant;

/// From this second on progress is told.
const FIRST: u64 = 2;

/// How many bytes are read at once where progress is told, so that it is told often enough.
const PIECE: usize = 4096;

const MEGABYTE: u64 = 1_000_000;

/// One line on standard error, where that is a terminal: how much was read, written over once a
/// second. Elsewhere it is nothing.
#[derive(Drop)]
pub struct Progress<'a> {
    rt: &'a HostRuntime,
    program: &'a str,
    /// When the run began. There is none where nothing is to be told.
    start: Option<Instant>,
    /// The second for which the line was last written.
    second: Cell<u64>,
    is_shown: Cell<bool>,
}

impl<'a> Progress<'a> {
    /// That of a run of this program which begins now.
    pub fn new(rt: &'a HostRuntime, program: &'a str) -> Self {
        let start = match Instant::now(rt) {
            Ok(now) if is_terminal(rt, "/dev/stderr") => Some(now),
            _ => None,
        };
        Progress {
            rt,
            program,
            start,
            second: Cell::new(FIRST - 1),
            is_shown: Cell::new(false),
        }
    }

    /// How many bytes are to be read at once, of so many.
    pub(crate) fn piece(&self, room: usize) -> usize
        ensures at_most { result ≤ room }
        ensures some { 0 < room → 0 < result }
    {
        match self.start {
            Some(_) => room.min(PIECE),
            None => room,
        }
    }

    /// So many bytes were read of an input, which has so many where that is known.
    pub(crate) fn tell(&self, bytes: u64, size: Option<u64>) {
        let Some(seconds) = self.due() else {
            return;
        };
        let (program, read) = (self.program, bytes / MEGABYTE);
        let _ = match size {
            Some(size) => {
                let whole = size / MEGABYTE;
                eprint!(self.rt; "\r{program}: {read} of {whole} MB read, {seconds} s\x1b[K")
            }
            None => eprint!(self.rt; "\r{program}: {read} MB read, {seconds} s\x1b[K"),
        };
        self.is_shown.set(true);
    }

    // The seconds that the run took so far, once for each second.
    fn due(&self) -> Option<u64> {
        let seconds = match self.start?.elapsed(self.rt) {
            Ok(elapsed) => elapsed.as_secs(),
            Err(_) => return None,
        };
        if seconds <= self.second.replace(seconds.max(self.second.get())) {
            return None;
        }
        Some(seconds)
    }

    /// Standard input is read as this from now on: where that is a terminal, how to end it is
    /// told.
    pub(crate) fn begin_standard(&self, what: &str) {
        if is_terminal(self.rt, "/dev/stdin") {
            let _ = eprintln!(self.rt;
                "{}: reads the {what} from the terminal, up to Ctrl-D at the start of a line",
                self.program
            );
        }
    }

    /// Takes the line away, where it is shown.
    pub fn clear(&self) {
        if self.is_shown.replace(false) {
            let _ = eprint!(self.rt; "\r\x1b[K");
        }
    }
}
