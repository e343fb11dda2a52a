//! The trait `System`: what a program has of the system that it runs on.
//!
//! It opens files by name, and says of each name what its file holds and whether it may refuse to
//! open it. So the contract of a program can say which input is the formula, and that a read failed
//! only where the system let one fail; and a test can stand in for the machine.

ghost use Rattle.std.specs.Prelude.{◌≡◌, ℕ, Bool, List, Option, IfOk, IsErr, true};

use crate::progress::Progress;
use std::alloc::Global;
use std::io::{self, Read};

/// The system that a program runs on.
pub trait System {
    /// What a file is read by.
    type File: Read + Drop;

    /// What standard input is read by.
    type Standard: Read + Drop;

    /// The bytes of the file of a name, where they are known.
    ghost holds: { Self → List ℕ → Option (List ℕ) };

    /// Whether the system may refuse to open the file of a name.
    ghost may_refuse: { Self → List ℕ → Bool };

    /// Opens the file of this name.
    fn open(&self, name: &str) -> io::Result<Self::File>
        ensures opened { IfOk result (λ file.
            Self.File.remaining file ≡ holds self.now name.now) }
        ensures refused { IsErr result → may_refuse self.now name.now ≡ true };

    /// How many bytes a file has, where that is known.
    fn size(&self, file: &Self::File) -> Option<u64>;

    /// Where it is told how far a run is, if anywhere.
    fn progress(&self) -> Option<&Progress<'_>>;

    /// Where memory comes from.
    fn alloc(&self) -> Global;

    /// A number that whoever writes the inputs doesn't know.
    fn seed(&self) -> u64;
}
