//! The steps of a proof as text, in whatever format.

ghost use Rattle.std.specs.Prelude.{◌≡◌, ◌≢◌, Bool, None, IsTrue};
ghost use Rattle.cnf_base.specs.Stream.{Along};
ghost use Rattle.cnf_base.specs.Text.{listing_at};
ghost use Rattle.cnf_base.specs.Readers.{Advances, TellsOf};
ghost use Rattle.cnf_base.specs.declared.input.Ending.TheVariants.{End};
ghost use Rattle.proofs.specs.Reading.{GivesStep, PassesNoEnd};
ghost use Rattle.proofs.specs.Steps.{Step, named};
ghost use Rattle.proofs.specs.TextSteps.{Format, move_of, at_end};
ghost use Rattle.proofs.specs.Code.TextSteps.{steps_listed};
ghost use Rattle.proofs.specs.Code.TextSteps.{left_to};
ghost use Rattle.proofs.specs.Code.TextMoves.{fault_at, text_left, EndsProof};
ghost use Rattle.proofs.specs.Code.TextMoves.{FitsMoved, MovesText};

use crate::moved::Moved;
use crate::stopped::Stopped;
use crate::{StepBuf, StepEnd, StepReader};
use cnf_base::{Fault, In, Number, Place, ReadFailed, Scanner, Source, TextFault, Token, Word};
use std::marker::{Model, PhantomData};

/// Where a word of a step stands, in a format that is text. A format says what a number and a `d`
/// do in each part.
pub trait TextPart: Copy {
    /// Where a word may stand, as the format says it.
    ghost Spot: { Type 0 };

    /// Where the words of a part stand.
    ghost spot: { Self → Spot };

    /// The format whose parts these are.
    ghost format: { Format Spot };

    /// Whether a part can follow what was read of a step so far.
    ghost fits: { Self → Step → Bool };

    /// Where a step's first word stands.
    fn start() -> Self
        ensures start { spot result ≡ format.start }
        ensures fits { IsTrue (fits result (named 0)) };

    /// Whether no word of the step was read.
    fn is_start(self) -> bool
        ensures { result ≡ format.is_start (spot self) };

    /// Puts a number into the step.
    fn take_number(self, step: &mut StepBuf, number: Number) -> Result<Moved<Self>, Stopped>
        requires { IsTrue (fits self step.old) }
        ensures moves { MovesText spot result
            (format.number_move (spot self) step.old number) step.new }
        ensures fits { FitsMoved fits result step.new };

    /// Puts a `d` into the step.
    fn take_d(self, step: &mut StepBuf) -> Result<Moved<Self>, Stopped>
        requires { IsTrue (fits self step.old) }
        ensures moves { MovesText spot result (format.d_move (spot self) step.old) step.new }
        ensures fits { FitsMoved fits result step.new };
}

/// A proof as text, over any number of lines, in the format whose parts these are. It holds no more
/// than the words of one step, in the buffer that the caller lends.
#[derive(Drop)]
pub struct TextReader<R: In, P: TextPart> {
    scanner: Scanner<R>,
    kept: Option<Result<bool, Fault>>,
    end: Option<StepEnd>,
    parts: PhantomData<P>,
}

impl<R: In, P: TextPart> Model for TextReader<R, P> {
    ghost use Rattle.std.specs.Prelude.{◌≡◌, []};
    ghost use Rattle.std.specs.List.{sum};
    ghost use Rattle.proofs.specs.Reading.{ProofReading};
    ghost use Rattle.proofs.specs.Code.Reading.{EndsRightly};

    ghost Value = { ProofReading };

    // Each field has to be named here. `stored` is the sum of the lengths of those that are lists
    // of literals or hints: no field is a list.
    ghost view = { λ record { scanner = scanner; end = end; kept = kept; parts = _ }. record {
      stream = scanner;
      kept = kept;
      step_end = end;
      stored = sum [];
    } };

    ghost invariant = { λ r. EndsRightly (view r) × ((view r).stored ≡ 0) };
}

impl<R: In, P: TextPart> TextReader<R, P> {
    /// A reader that stands where the source does. It reads nothing and takes no memory.
    pub fn new(source: Source<R>) -> Self
        ensures { result ≡ record { stream = source; kept = None; step_end = None; stored = 0 } }
    {
        TextReader {
            scanner: Scanner::new(source),
            kept: None,
            end: None,
            parts: PhantomData,
        }
    }

    /// Gives the reader back.
    pub fn release(self) -> R
        ensures reader { R.shown result ≡ self.stream.reader }
        ensures same_reader { R.borrows result ≡ self.stream.borrows }
    {
        self.scanner.release()
    }
}

impl<R: In, P: TextPart> StepReader for TextReader<R, P> {
    ghost stream = { λ r. r.stream };

    ghost kept = { λ r. r.kept };

    ghost end = { λ r. r.step_end };

    ghost stored = { λ r. r.stored };

    ghost to_come = { left_to P.format };

    fn next(&mut self, step: &mut StepBuf) -> Result<bool, Fault> {
        if let Some(answer) = self.kept {
            return answer;
        }
        let result = read_step(P::start(), &mut self.scanner, step, &mut self.end);
        match result {
            Ok(true) => {}
            Ok(false) | Err(_) => self.kept = Some(result),
        }
        result
    }

    fn step_end(&self) -> Option<StepEnd> {
        self.end
    }
}

// The step that begins with the next word, and where it ends. `start` is where a first word stands.
fn read_step<R: In, P: TextPart>(
    start: P,
    scanner: &mut Scanner<R>,
    step: &mut StepBuf,
    end: &mut Option<StepEnd>,
) -> Result<bool, Fault>
    requires start { P.spot start ≡ P.format.start }
    requires fits { IsTrue (P.fits start (named 0)) }
    ensures step { Along scanner.old scanner.new (λ i j. GivesStep result end.new step.new
        (steps_listed P.format (listing_at scanner.old.place i))
        (text_left P.format result (listing_at scanner.new.place j)) j
        × PassesNoEnd (steps_listed P.format (listing_at scanner.old.place i)) j) }
    ensures fewer { Advances result scanner.old scanner.new }
    ensures tells { TellsOf result scanner.old.reader scanner.new.reader }
{
    step.name(0);
    let mut part = start;
    loop {
        if let Some((count, number)) = scanner.number_ahead() {
            match part.take_number(step, number) {
                Ok(Moved::To(next)) => {
                    let _ = scanner.take_number(count);
                    part = next;
                }
                Ok(Moved::Complete) => {
                    *end = Some(StepEnd::Text(scanner.take_number(count)));
                    return Ok(true);
                }
                Err(stopped) => return Err(fault_at(stopped, scanner.take_number(count))),
            }
            continue;
        }
        match scanner.next_other() {
            Ok(Token::Word(place, word)) => match move_on(part, step, word) {
                Ok(Moved::To(next)) => part = next,
                Ok(Moved::Complete) => {
                    *end = Some(StepEnd::Text(place));
                    return Ok(true);
                }
                Err(stopped) => return Err(fault_at(stopped, place)),
            },
            Ok(Token::LineEnd(_)) => {}
            Ok(Token::End(place)) => return at_end(part, place),
            Err(ReadFailed) => return Err(Fault::ReadFailed),
        }
    }
}

// Puts a word into the step.
#[inline(always)]
fn move_on<P: TextPart>(part: P, step: &mut StepBuf, word: Word) -> Result<Moved<P>, Stopped>
    requires { IsTrue (P.fits part step.old) }
    ensures moves { MovesText P.spot result
        (move_of P.format (P.spot part) step.old word) step.new }
    ensures fits { FitsMoved P.fits result step.new }
{
    match word {
        Word::Number(number) => take_apart(part, step, number),
        Word::D => part.take_d(step),
        _ => Err(Stopped::Text(TextFault::BadToken)),
    }
}

// Puts a number that wasn't seen whole into the step, out of line.
#[cold]
#[inline(never)]
fn take_apart<P: TextPart>(part: P, step: &mut StepBuf, number: Number) -> Result<Moved<P>, Stopped>
    requires { IsTrue (P.fits part step.old) }
    ensures moves { MovesText P.spot result
        (P.format.number_move (P.spot part) step.old number) step.new }
    ensures fits { FitsMoved P.fits result step.new }
{
    part.take_number(step, number)
}

// The fault of the word at this place, or want of memory.
fn fault_at(stopped: Stopped, place: Place) -> Fault
    ensures { result ≡ fault_at stopped place }
{
    match stopped {
        Stopped::Text(kind) => Fault::Text(kind, place),
        Stopped::OutOfMemory => Fault::OutOfMemory,
    }
}

// What the end of the input means.
fn at_end<P: TextPart>(part: P, place: Place) -> Result<bool, Fault>
    ensures value { EndsProof result (at_end P.format (P.spot part) place End) }
    ensures read { result ≢ Err Fault.ReadFailed }
{
    if part.is_start() {
        return Ok(false);
    }
    Err(Fault::Text(TextFault::UnterminatedStep, place))
}
