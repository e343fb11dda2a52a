//! What each word does to a step of DRAT as text: `d`, literals, the last `0`.

ghost use Rattle.std.specs.Prelude.{true};
ghost use Rattle.proofs.specs.Drat.{DratSpot, drat};
ghost use Rattle.proofs.specs.Code.DratMoves.{drat_spot};

use super::part::DratPart;
use crate::moved::Moved;
use crate::stopped::Stopped;
use crate::{StepBuf, text};
use cnf_base::{Lit, Number, TextFault};

impl text::TextPart for DratPart {
    ghost Spot = { DratSpot };

    ghost spot = { drat_spot };

    ghost format = { drat };

    ghost fits = { λ _ _. true };

    fn start() -> DratPart {
        DratPart::Start
    }

    fn is_start(self) -> bool {
        matches!(self, DratPart::Start)
    }

    #[inline(always)]
    fn take_number(self, step: &mut StepBuf, number: Number) -> Result<Moved<DratPart>, Stopped> {
        if number.size > u64::from(Lit::MAX_VAR) {
            return Err(Stopped::Text(TextFault::LiteralTooLarge));
        }
        let Some(lit) = Lit::from_number(number) else {
            return Ok(Moved::Complete);
        };
        step.push_literal(lit)?;
        Ok(Moved::To(DratPart::Literals))
    }

    fn take_d(self, step: &mut StepBuf) -> Result<Moved<DratPart>, Stopped> {
        match self {
            DratPart::Start => {
                step.delete();
                Ok(Moved::To(DratPart::Literals))
            }
            DratPart::Literals => Err(Stopped::Text(TextFault::BadToken)),
        }
    }
}
