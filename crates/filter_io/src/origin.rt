//! Where the bytes of an input come from.

ghost use Rattle.std.specs.Prelude.{◌≡◌, Err, IfOk, IfErr, is_some};
ghost use Rattle.std.specs.Io.{ReadsAtMost};
ghost use Rattle.std.specs.Io.KnownBytes.{ReadConsumes};
ghost use Rattle.std.specs.IoError.{error_kind};
ghost use Rattle.cnf_base.specs.Stream.{tells_failure};
ghost use Rattle.filter_io.specs.Origins.{left_of, reader_of, unread, IsWantOfMemory};

use cnf_base::{FromRead, In, OutOfMemory};
use std::io::{self, Error, ErrorKind, Read};

/// A file that couldn't be opened, for this reason: each read of it fails.
#[derive(Drop)]
pub struct Unopened {
    reason: Error,
}

impl Read for Unopened {
    fn read(&mut self, _buf: &mut [u8]) -> io::Result<usize>
        ensures bound { ReadsAtMost result _buf.new }
        ensures bytes { ReadConsumes (⟦<Unopened as Read>⟧.remaining self.old)
            (⟦<Unopened as Read>⟧.remaining self.new) result _buf.new }
        ensures refused { result ≡ Err self.old.reason }
    {
        Err(self.reason)
    }
}

/// Where the bytes of an input come from.
#[derive(Drop)]
pub enum Origin<F: Read + Drop, S: Read + Drop> {
    File(FromRead<F>),
    Standard(FromRead<S>),
    Unopened(FromRead<Unopened>),
}

// What can't be opened is an input whose first read fails, for the same reason; only want of memory
// is an error.
fn refused(reason: Error) -> Result<Unopened, OutOfMemory>
    ensures kept { IfOk result (λ it. it.reason ≡ reason) }
    ensures refused { IfErr result (λ _. error_kind reason ≡ ErrorKind.OutOfMemory) }
{
    if reason.kind() == ErrorKind::OutOfMemory {
        return Err(OutOfMemory);
    }
    Ok(Unopened { reason })
}

impl<F: Read + Drop, S: Read + Drop> Origin<F, S> {
    /// A file, or why there is none.
    pub(crate) fn of_file(opened: io::Result<F>) -> Result<Self, OutOfMemory>
        ensures unread { IfOk result (λ origin.
            reader_of origin ≡ unread (left_of F.remaining opened)) }
        ensures refused { IfErr result (λ _. IsWantOfMemory opened) }
    {
        match opened {
            Ok(file) => Ok(Origin::File(FromRead::new(file))),
            Err(reason) => Ok(Origin::Unopened(FromRead::new(refused(reason)?))),
        }
    }

    /// Standard input, or why there is none.
    pub(crate) fn of_standard(opened: io::Result<S>) -> Result<Self, OutOfMemory>
        ensures unread { IfOk result (λ origin.
            reader_of origin ≡ unread (left_of S.remaining opened)) }
        ensures refused { IfErr result (λ _. IsWantOfMemory opened) }
    {
        match opened {
            Ok(standard) => Ok(Origin::Standard(FromRead::new(standard))),
            Err(reason) => Ok(Origin::Unopened(FromRead::new(refused(reason)?))),
        }
    }

    /// The error that a read gave, where one has failed.
    pub(crate) fn failure(&self) -> Option<Error>
        ensures { is_some result ≡ tells_failure (reader_of self.now) }
    {
        match self {
            Origin::File(file) => file.failure(),
            Origin::Standard(standard) => standard.failure(),
            Origin::Unopened(unopened) => unopened.failure(),
        }
    }
}

impl<F: Read + Drop, S: Read + Drop> In for Origin<F, S> {
    ghost shown = { reader_of };

    fn read(&mut self, buf: &mut [u8]) -> io::Result<usize> {
        match self {
            Origin::File(file) => file.read(buf),
            Origin::Standard(standard) => standard.read(buf),
            Origin::Unopened(unopened) => unopened.read(buf),
        }
    }
}
