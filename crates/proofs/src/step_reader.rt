//! The trait of all readers of proofs, `StepReader`: one step at a time, into the caller's buffer.
//!
//! So a proof of any size is read in the room of its longest step. The contract names no format:
//! each reader says what is still to come of an input, so that a session or an engine serves them
//! all. A reader keeps the answer that ended it, so that no want of memory can follow a clean end.

ghost use Rattle.std.specs.Prelude.{◌≡◌, ℕ, Bool, Option, Result};
ghost use Rattle.cnf_base.specs.Stream.{Suffix, Stream, Along};
ghost use Rattle.cnf_base.specs.Readers.{Advances, Keeps, TellsOf};
ghost use Rattle.cnf_base.specs.declared.fault.Fault.{Fault};
ghost use Rattle.proofs.specs.Reading.{Proof, GivesStep, PassesNoEnd};
ghost use Rattle.proofs.specs.declared.step_end.StepEnd.{StepEnd};

use crate::{StepBuf, StepEnd};
use cnf_base::Fault;

/// A reader of a proof, one step at a time.
pub trait StepReader {
    /// Where it stands in its input.
    ghost stream: { Self → Stream };

    /// The answer that it gives from now on, where it has come to an end: false, or its fault.
    ghost kept: { Self → Option (Result Bool Fault) };

    /// Where the step ends that it gave last. It is open after a fault or a clean end.
    ghost end: { Self → Option StepEnd };

    /// How many literals and hints it keeps of what it has read: the sum of the lengths of all
    /// lists of literals or hints in its own fields.
    ghost stored: { Self → ℕ };

    /// What is still to come of an input: steps, and how they end.
    ghost to_come: { Self → Suffix → Proof };

    /// Puts the next step into the buffer. At a clean end it answers false, at every call; after a
    /// fault, that fault. After a fault or false the buffer's content is open, and so is where the
    /// last step ended. No more than the step is taken of the input, also where memory is refused,
    /// and nothing past a word or a byte that is at fault.
    fn next(&mut self, step: &mut StepBuf) -> Result<bool, Fault>
        ensures step { Along (stream self.old) (stream self.new)
            (λ i j. GivesStep result (end self.new) step.new
            (to_come self.old i) (to_come self.new j) j
            × PassesNoEnd (to_come self.old i) j) }
        ensures stays { (answer : Result Bool Fault) → kept self.old ≡ Some answer →
            (result ≡ answer) × (self.new ≡ self.old) }
        ensures keeps { Keeps result (kept self.new) }
        ensures stored { stored self.new ≡ 0 }
        ensures fewer { Advances result (stream self.old) (stream self.new) }
        ensures tells { TellsOf result (stream self.old).reader
            (stream self.new).reader };

    /// Where the step ends that was given last.
    fn step_end(&self) -> Option<StepEnd>
        ensures { result ≡ end self.now };
}
