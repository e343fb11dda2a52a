//! What each word does to a step of LRAT: identifiers, `d`, literals, hints, a `0`.

ghost use Rattle.std.specs.Prelude.{◌≡◌, ◌≤◌, IsTrue};
ghost use Rattle.proofs.specs.Lrat.{LratSpot, lrat, identifier, literal, hint, deleted, signed};
ghost use Rattle.proofs.specs.Code.TextMoves.{FitsMoved, MovesText};
ghost use Rattle.proofs.specs.Code.LratMoves.{lrat_spot, fits_part, is_addition};

use super::part::LratPart;
use crate::moved::Moved;
use crate::stopped::Stopped;
use crate::{StepBuf, text};
use cnf_base::{Lit, Number, TextFault};

const MOST: u64 = 9223372036854775807;

impl text::TextPart for LratPart {
    ghost Spot = { LratSpot };

    ghost spot = { lrat_spot };

    ghost format = { lrat };

    ghost fits = { fits_part };

    fn start() -> LratPart {
        LratPart::Identifier
    }

    fn is_start(self) -> bool {
        matches!(self, LratPart::Identifier)
    }

    #[inline(always)]
    fn take_number(self, step: &mut StepBuf, number: Number) -> Result<Moved<LratPart>, Stopped> {
        match self {
            LratPart::Identifier => take_identifier(step, number),
            LratPart::AfterIdentifier | LratPart::Literals => take_literal(step, number),
            LratPart::Hints => take_hint(step, number),
            LratPart::Deletion => take_deleted(step, number),
        }
    }

    fn take_d(self, step: &mut StepBuf) -> Result<Moved<LratPart>, Stopped> {
        match self {
            LratPart::AfterIdentifier => {
                step.delete();
                Ok(Moved::To(LratPart::Deletion))
            }
            LratPart::Identifier | LratPart::Literals | LratPart::Hints | LratPart::Deletion => {
                Err(Stopped::Text(TextFault::BadToken))
            }
        }
    }
}

fn take_identifier(step: &mut StepBuf, number: Number) -> Result<Moved<LratPart>, Stopped>
    ensures moves { MovesText lrat_spot result (identifier number) step.new }
    ensures fits { FitsMoved fits_part result step.new }
{
    if number.is_negative || number.size == 0 {
        return Err(Stopped::Text(TextFault::BadToken));
    }
    if number.size > MOST {
        return Err(past_limit());
    }
    step.name(number.size);
    Ok(Moved::To(LratPart::AfterIdentifier))
}

fn take_literal(step: &mut StepBuf, number: Number) -> Result<Moved<LratPart>, Stopped>
    requires { IsTrue (is_addition step.old.kind) }
    ensures moves { MovesText lrat_spot result (literal step.old number) step.new }
    ensures fits { FitsMoved fits_part result step.new }
{
    if number.size > u64::from(Lit::MAX_VAR) {
        return Err(Stopped::Text(TextFault::LiteralTooLarge));
    }
    let Some(lit) = Lit::from_number(number) else {
        return Ok(Moved::To(LratPart::Hints));
    };
    step.push_literal(lit)?;
    Ok(Moved::To(LratPart::Literals))
}

fn take_hint(step: &mut StepBuf, number: Number) -> Result<Moved<LratPart>, Stopped>
    requires { IsTrue (is_addition step.old.kind) }
    ensures moves { MovesText lrat_spot result (hint step.old number) step.new }
    ensures fits { FitsMoved fits_part result step.new }
{
    if number.size > MOST {
        return Err(past_limit());
    }
    if number.size == 0 {
        return Ok(Moved::Complete);
    }
    step.push_hint(signed(number))?;
    Ok(Moved::To(LratPart::Hints))
}

fn take_deleted(step: &mut StepBuf, number: Number) -> Result<Moved<LratPart>, Stopped>
    ensures moves { MovesText lrat_spot result (deleted step.old number) step.new }
    ensures fits { FitsMoved fits_part result step.new }
{
    if number.is_negative {
        return Err(Stopped::Text(TextFault::BadToken));
    }
    if number.size > MOST {
        return Err(past_limit());
    }
    if number.size == 0 {
        return Ok(Moved::Complete);
    }
    step.push_hint(number.size as i64)?;
    Ok(Moved::To(LratPart::Deletion))
}

fn signed(number: Number) -> i64
    requires { number.size ≤ 9223372036854775807 }
    ensures { result ≡ signed number }
{
    let size = number.size as i64;
    if number.is_negative { -size } else { size }
}

// An identifier or a hint past the greatest one.
fn past_limit() -> Stopped
    ensures { result ≡ Stopped.Text TextFault.IdTooLarge }
{
    Stopped::Text(TextFault::IdTooLarge)
}
