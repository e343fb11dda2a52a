//! What a solver's output claims.

ghost use Rattle.std.specs.Prelude.{◌≡◌, IfOk};
ghost use Rattle.cnf_base.specs.Stream.{Stream, Along};
ghost use Rattle.cnf_base.specs.Readers.{IsLeft, TellsOf};
ghost use Rattle.dimacs.specs.Claim.{claim_at, IsClaim, IsConsistent};

use crate::Model;
use crate::said::Said;
use cnf_base::{Fault, In, ReadFailed, Scanner, Source, Token};
use std::alloc::Global;

/// Reads a solver's output whole, in the form of the SAT Competition: the model that it claims, or
/// the first fault. The reader is handed back in every case.
pub fn read_claim<R: In>(alloc: Global, source: Source<R>) -> (Result<Model, Fault>, R)
    // The claim of the output is this, whatever may follow a fault.
    ensures claim { (last : Stream) × IsLeft last (R.shown result.1) (R.borrows result.1)
        × Along source last (λ i j. IsClaim result.0 (claim_at source.place i))
        × TellsOf result.0 source.reader last.reader }
    ensures consistent { IfOk result.0 IsConsistent }
{
    let mut scanner = Scanner::new(source);
    let claim = read_tokens(alloc, &mut scanner);
    (claim, scanner.release())
}

// Takes all tokens of an output.
fn read_tokens<R: In>(alloc: Global, scanner: &mut Scanner<R>) -> Result<Model, Fault>
    ensures claim { Along scanner.old scanner.new
        (λ i j. IsClaim result (claim_at scanner.old.place i)) }
    ensures consistent { IfOk result IsConsistent }
    ensures tells { TellsOf result scanner.old.reader scanner.new.reader }
{
    let mut said = Said::new(alloc);
    loop {
        match scanner.next() {
            Ok(Token::Word(place, word)) => {
                if let Err(fault) = said.take_word(place, word) {
                    return Err(fault);
                }
            }
            Ok(Token::LineEnd(place)) => {
                if let Err(fault) = said.end_line(place) {
                    return Err(fault);
                }
            }
            Ok(Token::End(place)) => return said.conclude(place),
            Err(ReadFailed) => return Err(Fault::ReadFailed),
        }
    }
}
