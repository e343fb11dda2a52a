//! Binary DRAT.

ghost use Rattle.std.specs.Prelude.{◌≡◌, ◌≢◌, None};
ghost use Rattle.cnf_base.specs.Stream.{Along};
ghost use Rattle.cnf_base.specs.Readers.{Advances, TellsOf};
ghost use Rattle.cnf_base.specs.declared.input.Ending.TheVariants.{End};
ghost use Rattle.proofs.specs.Reading.{GivesStep, PassesNoEnd};
ghost use Rattle.proofs.specs.Code.TextMoves.{EndsProof};
ghost use Rattle.proofs.specs.Binary.{BinarySpot, binary_at_end};
ghost use Rattle.proofs.specs.Code.Binary.{binary_steps_at};
ghost use Rattle.proofs.specs.Code.Binary.{binary_to_come};
ghost use Rattle.proofs.specs.Code.BinaryMoves.{IsAt, binary_left};

mod groups;
mod moves;
mod part;
mod stopped;
mod whole;

use crate::moved::Moved;
use crate::{StepBuf, StepEnd, StepReader};
use cnf_base::{BinaryFault, Fault, In, ReadFailed, Source};
use moves::move_on;
use part::BinaryPart;
use std::marker::Model;
use stopped::Stopped;
use whole::run_on;

/// A proof in binary DRAT. It holds no more than the literals of one step, in the buffer that the
/// caller lends.
#[derive(Drop)]
pub struct DratBinary<R: In> {
    source: Source<R>,
    kept: Option<Result<bool, Fault>>,
    end: Option<StepEnd>,
}

impl<R: In> Model for DratBinary<R> {
    ghost use Rattle.std.specs.Prelude.{◌≡◌, []};
    ghost use Rattle.std.specs.List.{sum};
    ghost use Rattle.proofs.specs.Reading.{ProofReading};
    ghost use Rattle.proofs.specs.Code.Reading.{EndsRightly};

    ghost Value = { ProofReading };

    // Each field has to be named here. `stored` is the sum of the lengths of those that are lists
    // of literals or hints: no field is a list.
    ghost view = { λ record { source = source; end = end; kept = kept }. record {
      stream = source;
      kept = kept;
      step_end = end;
      stored = sum [];
    } };

    ghost invariant = { λ r. EndsRightly (view r) × ((view r).stored ≡ 0) };
}

impl<R: In> DratBinary<R> {
    /// A reader that stands where the source does. It reads nothing and takes no memory.
    pub fn new(source: Source<R>) -> Self
        ensures { result ≡ record { stream = source; kept = None; step_end = None; stored = 0 } }
    {
        DratBinary {
            source,
            kept: None,
            end: None,
        }
    }

    /// Gives the reader back.
    pub fn release(self) -> R
        ensures reader { R.shown result ≡ self.stream.reader }
        ensures same_reader { R.borrows result ≡ self.stream.borrows }
    {
        self.source.release()
    }
}

impl<R: In> StepReader for DratBinary<R> {
    ghost stream = { λ r. r.stream };

    ghost kept = { λ r. r.kept };

    ghost end = { λ r. r.step_end };

    ghost stored = { λ r. r.stored };

    ghost to_come = { binary_to_come };

    fn next(&mut self, step: &mut StepBuf) -> Result<bool, Fault> {
        if let Some(answer) = self.kept {
            return answer;
        }
        let result = read_step(&mut self.source, step, &mut self.end);
        match result {
            Ok(true) => {}
            Ok(false) | Err(_) => self.kept = Some(result),
        }
        result
    }

    fn step_end(&self) -> Option<StepEnd> {
        self.end
    }
}

// The step that begins with the next byte, and where it ends.
fn read_step<R: In>(
    source: &mut Source<R>,
    step: &mut StepBuf,
    end: &mut Option<StepEnd>,
) -> Result<bool, Fault>
    ensures step { Along source.old source.new (λ i j. GivesStep result end.new step.new
        (binary_steps_at source.old.byte_no i) (binary_left result source.new.byte_no j) j
        × PassesNoEnd (binary_steps_at source.old.byte_no i) j) }
    ensures fewer { Advances result source.old source.new }
    ensures tells { TellsOf result source.old.reader source.new.reader }
{
    step.name(0);
    let mut part = BinaryPart::Tag;
    loop {
        let byte_no = source.byte_no();
        match source.peek() {
            Ok(Some(byte)) => {
                source.bump();
                match move_on(part, step, byte_no, byte) {
                    Ok(Moved::To(next)) => {
                        part = next;
                        if run_on(part, source, step).is_err() {
                            return Err(Fault::OutOfMemory);
                        }
                    }
                    Ok(Moved::Complete) => {
                        *end = Some(StepEnd::Byte(byte_no));
                        return Ok(true);
                    }
                    Err(Stopped::Binary(kind, at)) => return Err(Fault::Binary(kind, at)),
                    Err(Stopped::OutOfMemory) => return Err(Fault::OutOfMemory),
                }
            }
            Ok(None) => return at_end(part, byte_no),
            Err(ReadFailed) => return Err(Fault::ReadFailed),
        }
    }
}

// What the end of the input means.
fn at_end(part: BinaryPart, byte_no: u64) -> Result<bool, Fault>
    ensures value { (spot : BinarySpot) → IsAt part spot →
        EndsProof result (binary_at_end spot byte_no End) }
    ensures read { result ≢ Err Fault.ReadFailed }
{
    match part {
        BinaryPart::Tag => Ok(false),
        BinaryPart::Literals | BinaryPart::Number(_) => {
            Err(Fault::Binary(BinaryFault::UnterminatedStep, byte_no))
        }
    }
}
