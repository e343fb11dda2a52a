//! What the words of a command line ask for.

ghost use Rattle.std.specs.Prelude.{◌≡◌};
ghost use Rattle.command_line.specs.declared.args.ArgsFault.TheVariants.{OutOfMemory};

use std::alloc::AllocError;
use thiserror::Error;

/// What the words of a command line ask for.
#[derive(Clone, Debug, PartialEq, Eq, Drop)]
pub struct Args {
    /// `--binary`: the proof is in the binary form.
    pub binary: bool,
    /// `--trace`: each accepted step has a line.
    pub trace: bool,
    /// `--strict`: a deletion of a clause that is not alive is refused.
    pub strict: bool,
    /// `--pr`: an addition may list a witness after its clause.
    pub pr: bool,
    /// `--keep-units`: a deletion of a live clause that is the reason of a root-level literal is
    /// ignored.
    pub keep_units: bool,
    /// The name of the file with the formula.
    pub formula: String,
    /// The name of the file with the proof, or with the solver's output.
    pub second: Option<String>,
}

/// Why there are no `Args`.
#[derive(Debug, Drop, Error)]
pub enum ArgsFault {
    /// The words are no command line of the tool, or ask for help or the version: the text to show.
    #[error("{0}")]
    Words(String),
    #[error("out of memory")]
    OutOfMemory,
}

impl From<AllocError> for ArgsFault {
    ghost from_gives = { λ _ e. e ≡ OutOfMemory };

    fn from(_error: AllocError) -> ArgsFault {
        ArgsFault::OutOfMemory
    }
}
