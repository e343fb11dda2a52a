//! What a program writes to.

ghost use Rattle.std.specs.Prelude.{◌≡◌, IfOk, IfErr};

use crate::progress::Progress;
use cnf_base::OutOfMemory;
use std::io::{self, LineWriter, Stdout};
use writers::{Out, ToWrite};

/// A writer that may go to the terminal that progress is told on: so that line is taken away before
/// anything is written.
#[derive(Drop)]
pub struct Output<'a, O: Out + Drop> {
    out: O,
    progress: &'a Progress<'a>,
}

impl<'a, O: Out + Drop> Output<'a, O> {
    /// Over this writer.
    pub(crate) fn new(out: O, progress: &'a Progress<'a>) -> Self
        ensures { result.out ≡ out }
    {
        Output { out, progress }
    }
}

impl<O: Out + Drop> Out for Output<'_, O> {
    ghost held = { λ w. O.held w.out };

    ghost has_failed = { λ w. O.has_failed w.out };

    ghost is_flushed = { λ w. O.is_flushed w.out };

    ghost borrows = { λ w. O.borrows w.out };

    fn write(&mut self, buf: &[u8]) -> io::Result<usize> {
        self.progress.clear();
        self.out.write(buf)
    }

    fn flush(&mut self) -> io::Result<()> {
        self.out.flush()
    }
}

/// Standard output, line by line.
pub(crate) fn standard_output(
    rt: &HostRuntime,
) -> Result<ToWrite<LineWriter<Stdout>>, OutOfMemory> {
    match LineWriter::new(rt.alloc(), rt.stdout()) {
        Ok(out) => Ok(ToWrite::new(out)),
        Err(_) => Err(OutOfMemory),
    }
}
