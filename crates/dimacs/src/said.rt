//! What a solver's output has said.

ghost use Rattle.std.specs.Prelude.{◌≡◌, Some, IfOk};
ghost use Rattle.cnf_base.specs.declared.input.Ending.TheVariants.{End};
ghost use Rattle.dimacs.specs.Claim.{nothing, on_first, on_status, on_value, on_literal};
ghost use Rattle.dimacs.specs.Claim.{claim_on_word, on_line_end, on_end, placed, IsClaim};
ghost use Rattle.dimacs.specs.Claim.{IsConsistent};
ghost use Rattle.dimacs.specs.Code.Claiming.{Takes};

use crate::Model;
use crate::position::Position;
use cnf_base::{Fault, Lit, Place, TextFault, Word};
use std::alloc::Global;
use std::marker;

/// What a solver's output has said up to some token.
#[derive(Drop)]
pub(crate) struct Said {
    position: Position,
    has_status: bool,
    is_ended: bool,
    model: Model,
}

impl marker::Model for Said {
    ghost use Rattle.dimacs.specs.Claim.{Said, IsConsistent};
    ghost use Rattle.dimacs.specs.Code.Claiming.{line_position};

    ghost Value = { Said };

    ghost view = { λ s. record {
      position = line_position s.position;
      has_status = s.has_status;
      is_ended = s.is_ended;
      listed = s.model;
    } };

    // Each field has to be named here.
    ghost invariant = { λ record { position = _; has_status = _; is_ended = _; model = model }.
        IsConsistent model };
}

impl Said {
    /// Nothing yet. It takes no memory.
    pub(crate) fn new(alloc: Global) -> Self
        ensures { result ≡ nothing }
    {
        Said {
            position: Position::LineStart,
            has_status: false,
            is_ended: false,
            model: Model::new(alloc),
        }
    }

    /// Takes a word. After a fault the content is open.
    pub(crate) fn take_word(&mut self, place: Place, word: Word) -> Result<(), Fault>
        ensures { Takes result self.new (placed place (claim_on_word self.old word)) }
    {
        match self.position {
            Position::LineStart => self.take_first(place, word),
            Position::AfterS => self.take_status(place, word),
            Position::AfterStatus => Err(Fault::Text(TextFault::BadLine, place)),
            Position::Values => self.take_value(place, word),
        }
    }

    /// Takes a line's end, or the output's after a last line.
    pub(crate) fn end_line(&mut self, place: Place) -> Result<(), Fault>
        ensures { Takes result self.new (placed place (on_line_end self.old)) }
    {
        if self.position == Position::AfterS {
            return Err(Fault::Text(TextFault::BadLine, place));
        }
        self.position = Position::LineStart;
        Ok(())
    }

    /// Takes the output's end, and gives the model that was claimed.
    pub(crate) fn conclude(mut self, place: Place) -> Result<Model, Fault>
        ensures claim { IsClaim result (on_end self place End) }
        ensures consistent { IfOk result IsConsistent }
    {
        self.end_line(place)?;
        if !self.has_status {
            return Err(Fault::Text(TextFault::NoStatus, place));
        }
        if !self.is_ended {
            return Err(Fault::Text(TextFault::UnterminatedModel, place));
        }
        Ok(self.model)
    }

    // The first word of a line.
    fn take_first(&mut self, place: Place, word: Word) -> Result<(), Fault>
        ensures { Takes result self.new (placed place (on_first self.old word)) }
    {
        match word {
            Word::S => {
                if self.has_status {
                    return Err(Fault::Text(TextFault::SecondStatus, place));
                }
                self.position = Position::AfterS;
                Ok(())
            }
            Word::V => {
                self.position = Position::Values;
                Ok(())
            }
            _ => Err(Fault::Text(TextFault::BadLine, place)),
        }
    }

    // The word after an `s`.
    fn take_status(&mut self, place: Place, word: Word) -> Result<(), Fault>
        ensures { Takes result self.new (placed place (on_status self.old word)) }
    {
        match word {
            Word::Satisfiable => {
                self.position = Position::AfterStatus;
                self.has_status = true;
                Ok(())
            }
            Word::Unsatisfiable | Word::Unknown => Err(Fault::Text(TextFault::NotClaimed, place)),
            _ => Err(Fault::Text(TextFault::BadLine, place)),
        }
    }

    // A word after a `v`.
    fn take_value(&mut self, place: Place, word: Word) -> Result<(), Fault>
        ensures { Takes result self.new (placed place (on_value self.old word)) }
    {
        let Word::Number(number) = word else {
            return Err(Fault::Text(TextFault::BadToken, place));
        };
        if number.size > u64::from(Lit::MAX_VAR) {
            return Err(Fault::Text(TextFault::LiteralTooLarge, place));
        }
        if self.is_ended {
            return Err(Fault::Text(TextFault::AfterEnd, place));
        }
        let Some(lit) = Lit::from_number(number) else {
            self.is_ended = true;
            return Ok(());
        };
        self.list(place, lit)
    }

    // A literal of the model.
    fn list(&mut self, place: Place, lit: Lit) -> Result<(), Fault>
        ensures { Takes result self.new (placed place (on_literal self.old (Some lit))) }
    {
        if self.model.holds(lit.neg()) {
            return Err(Fault::Text(TextFault::Complement, place));
        }
        self.model.insert(lit)?;
        Ok(())
    }
}
