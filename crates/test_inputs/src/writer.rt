//! A writer with limited room.
ghost use Rattle.std.specs.Prelude.{◌≤◌};

use crate::Stop;
use std::alloc::Global;
use std::io;
use std::io::Write;

/// Takes `room` bytes, at most `most` a call. It counts.
#[derive(Drop)]
pub struct Writer {
    /// What it took.
    pub taken: Vec<u8>,
    /// How often it was given bytes.
    pub writes: usize,
    room: usize,
    most: usize,
    stop: Stop,
    flushes: bool,
}

impl Writer {
    /// With room for so many bytes, and then this.
    pub fn new(alloc: Global, room: usize, stop: Stop) -> Writer {
        Writer {
            taken: Vec::new(alloc),
            writes: 0,
            room,
            most: usize::MAX,
            stop,
            flushes: true,
        }
    }

    /// Takes one byte a call.
    pub fn byte_a_call(alloc: Global) -> Writer {
        Writer {
            most: 1,
            ..Writer::new(alloc, usize::MAX, Stop::TakesNone)
        }
    }

    /// Takes everything, and fails to flush.
    pub fn without_flush(alloc: Global) -> Writer {
        Writer {
            flushes: false,
            ..Writer::new(alloc, usize::MAX, Stop::TakesNone)
        }
    }
}

impl Write for Writer {
    fn write(&mut self, buf: &[u8]) -> io::Result<usize> {
        self.writes = self.writes.saturating_add(1);
        let n = buf.len().min(self.room).min(self.most);
        if n == 0 && !buf.is_empty() {
            match self.stop {
                Stop::TakesNone => return Ok(0),
                Stop::Fails => {}
                Stop::FailsOnce => self.room = usize::MAX,
            }
            return Err(io::Error::from(io::ErrorKind::StorageFull));
        }
        self.taken.extend_from_slice(&buf[..n])?;
        self.room -= n;
        Ok(n)
    }

    fn flush(&mut self) -> io::Result<()> {
        if !self.flushes {
            return Err(io::Error::from(io::ErrorKind::StorageFull));
        }
        Ok(())
    }
}
