//! What ends a step of a proof as text early: a fault, or want of memory.

ghost use Rattle.std.specs.Prelude.{◌≡◌};
ghost use Rattle.proofs.specs.declared.stopped.Stopped.TheVariants.{OutOfMemory as Refused};

use cnf_base::{OutOfMemory, TextFault};

/// Why a word doesn't take a step on.
#[derive(Clone, Copy)]
pub enum Stopped {
    Text(TextFault),
    OutOfMemory,
}

impl From<OutOfMemory> for Stopped {
    ghost from_gives = { λ _ e. e ≡ Refused };

    fn from(_refused: OutOfMemory) -> Stopped {
        Stopped::OutOfMemory
    }
}
