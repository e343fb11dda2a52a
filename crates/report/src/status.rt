//! The status of a run: a verdict, or why there is none, be it a wrong command line (`Usage`).

ghost use Rattle.std.specs.Prelude.{◌≡◌};
ghost use Rattle.report.specs.Status.{code_of};

/// How a program ends. Only `Verified` is a positive verdict.
#[derive(Clone, Copy, Debug, PartialEq, Eq)]
pub enum Status {
    /// The proof, or the model, was verified.
    Verified,
    /// It wasn't: a refused step, no empty clause, or a clause that isn't satisfied.
    NotVerified,
    /// An input is malformed.
    Malformed,
    /// A read failed.
    ReadFailed,
    /// A growth was refused.
    OutOfMemory,
    /// A write or the last flush failed.
    WriteFailed,
    /// The words of the command line aren't right, or ask for help or the version.
    Usage,
}

impl Status {
    /// The exit status of a program: 0 to 6, in the order of the variants.
    pub fn code(self) -> u8
        ensures { result ≡ code_of self }
    {
        match self {
            Status::Verified => 0,
            Status::NotVerified => 1,
            Status::Malformed => 2,
            Status::ReadFailed => 3,
            Status::OutOfMemory => 4,
            Status::WriteFailed => 5,
            Status::Usage => 6,
        }
    }
}
