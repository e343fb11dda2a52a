//! A formula, clause by clause.

ghost use Rattle.std.specs.Prelude.{◌≡◌, ◌+◌, ◌<◌, ◌≤◌, Bool, true, Option, Result, IfOk, IfErr};
ghost use Rattle.std.specs.Prelude.{OnOk};
ghost use Rattle.cnf_base.specs.Stream.{Stream, Along, most_to_come, tells_failure};
ghost use Rattle.cnf_base.specs.Text.{listing_at};
ghost use Rattle.cnf_base.specs.declared.input.Ending.TheVariants.{End};
ghost use Rattle.cnf_base.specs.Readers.{Advances, IsLeft, Keeps, Tells, TellsOf};
ghost use Rattle.dimacs.specs.Formula.{body_at_end, body_of, ends_after, ends_at, formula_at};
ghost use Rattle.dimacs.specs.Formula.{judged};
ghost use Rattle.dimacs.specs.Reading.{clauses_to_come, GivesClause, unopened};
ghost use Rattle.dimacs.specs.Formula.{opened};
ghost use Rattle.dimacs.specs.Code.Reading.{body_left, EndsBody};
ghost use Rattle.dimacs.specs.Reading.{GivesEnd, PassesNoEnd, ends_to_come};
ghost use Rattle.dimacs.specs.Code.Reading.{ends_left};

use crate::ClauseBuf;
use crate::header::{Header, read_header};
use cnf_base::{
    Fault, In, Lit, Number, Place, ReadFailed, Scanner, Source, TextFault, Token, Word,
};
use std::marker::Model;

/// A formula in DIMACS CNF, read clause by clause. It holds nothing of the formula but its header.
#[derive(Drop)]
pub struct FormulaReader<R: In> {
    scanner: Scanner<R>,
    header: Header,
    complete: u32,
    kept: Option<Result<bool, Fault>>,
}

impl<R: In> Model for FormulaReader<R> {
    ghost use Rattle.std.specs.Prelude.{◌≡◌, ◌≤◌, [], Some, Ok, Err, true};
    ghost use Rattle.std.specs.List.{sum};
    ghost use Rattle.cnf_base.specs.Stream.{tells_failure};
    ghost use Rattle.cnf_base.specs.declared.fault.Fault.TheVariants.{ReadFailed};
    ghost use Rattle.dimacs.specs.Reading.{FormulaReading};

    ghost Value = { FormulaReading };

    // Each field has to be named here. `stored` is the sum of the lengths of those that are lists
    // of literals: no field is a list.
    ghost view = { λ record { scanner = scanner; header = header; complete = n; kept = kept }.
        record { stream = scanner; header = header; complete = n; kept = kept; stored = sum [] } };

    ghost invariant = { λ r. (r.header.vars ≤ 268435455) × (r.complete ≤ r.header.clauses)
        × (r.kept ≡ Some (Ok true) → ⊥)
        × (r.kept ≡ Some (Err ReadFailed) → tells_failure r.scanner.reader ≡ true)
        × ((view r).stored ≡ 0) };
}

impl<R: In> FormulaReader<R> {
    /// Reads the header. A fault there hands the reader back.
    pub fn open(source: Source<R>) -> Result<Self, (Fault, R)>
        // The formula is this header and what is still to come of it, and so are the ends of its
        // clauses.
        ensures opened { IfOk result (λ r. Along source r.stream
            (λ i j. (formula_at source.place i ≡ opened r.header (clauses_to_come r j))
            × (ends_at source.place i ≡ ends_to_come r j))) }
        ensures started { IfOk result (λ r. (r.complete ≡ 0) × (r.kept ≡ None)) }
        ensures stored { IfOk result (λ r. r.stored ≡ 0) }
        ensures fewer { IfOk result (λ r. most_to_come r.stream ≤ most_to_come source) }
        ensures mark { IfOk result (λ r.
            tells_failure r.stream.reader ≡ tells_failure source.reader) }

        // The formula is this fault, whatever may follow, and past the token at fault nothing was
        // taken.
        ensures refused { IfErr result (λ e. (last : Stream)
            × IsLeft last (R.shown e.1) (R.borrows e.1)
            × Along source last (λ i j. (formula_at source.place i ≡ unopened e.0)
            × PassesNoEnd (ends_at source.place i) j)
            × Tells e.0 source.reader last.reader) }
    {
        let mut scanner = Scanner::new(source);
        match read_header(&mut scanner) {
            Ok(header) => Ok(FormulaReader {
                scanner,
                header,
                complete: 0,
                kept: None,
            }),
            Err(fault) => Err((fault, scanner.release())),
        }
    }

    /// The header.
    pub fn header(&self) -> Header
        ensures { result ≡ self.now.header }
    {
        self.header
    }

    /// The header's number of variables.
    pub fn vars(&self) -> u32
        ensures value { result ≡ self.now.header.vars }
        ensures limit { result ≤ 268435455 }
    {
        self.header.vars
    }

    /// The header's number of clauses.
    pub fn clauses(&self) -> u32
        ensures { result ≡ self.now.header.clauses }
    {
        self.header.clauses
    }

    /// Puts the next clause into the buffer. After the last one it answers false, at every call;
    /// after a fault, that fault. After a fault or false the buffer's content is open. No more than
    /// the clause, or the token at fault, is taken of the input, also where memory is refused.
    pub fn next(&mut self, clause: &mut ClauseBuf) -> Result<bool, Fault>
        ensures clause { Along self.old.stream self.new.stream
            (λ i j. GivesClause result clause.new (clauses_to_come self.old i)
            (clauses_to_come self.new j)
            × GivesEnd result (ends_to_come self.old i) (ends_to_come self.new j) j) }
        ensures header { self.new.header ≡ self.old.header }
        ensures counts { result ≡ Ok true → (self.new.complete ≡ self.old.complete + 1)
            × (self.new.complete ≤ self.old.header.clauses)
            × (self.new.complete ≤ 4294967295) }
        ensures stays { (answer : Result Bool Fault) → self.old.kept ≡ Some answer →
            (result ≡ answer) × (self.new ≡ self.old) }
        ensures keeps { Keeps result self.new.kept }
        ensures stored { self.new.stored ≡ 0 }
        ensures fewer { Advances result self.old.stream self.new.stream }
        ensures tells { TellsOf result self.old.stream.reader
            self.new.stream.reader }
    {
        if let Some(answer) = self.kept {
            return answer;
        }
        clause.clear();
        let result = read_clause(&mut self.scanner, self.header, self.complete, clause);
        match result {
            Ok(true) => self.complete += 1,
            Ok(false) | Err(_) => self.kept = Some(result),
        }
        result
    }

    /// Gives the reader back.
    pub fn release(self) -> R
        ensures reader { R.shown result ≡ self.stream.reader }
        ensures same_reader { R.borrows result ≡ self.stream.borrows }
    {
        self.scanner.release()
    }
}

// Adds the literals up to the next `0` to those at hand.
fn read_clause<R: In>(
    scanner: &mut Scanner<R>,
    header: Header,
    complete: u32,
    clause: &mut ClauseBuf,
) -> Result<bool, Fault>
    ensures clause { Along scanner.old scanner.new (λ i j. GivesClause result clause.new
        (body_of header complete clause.old (listing_at scanner.old.place i))
        (body_left result header complete (listing_at scanner.new.place j))
        × GivesEnd result (ends_after header complete (listing_at scanner.old.place i))
        (ends_left result header complete (listing_at scanner.new.place j)) j) }
    ensures counts { result ≡ Ok true → complete < header.clauses }
    ensures fewer { Advances result scanner.old scanner.new }
    ensures tells { TellsOf result scanner.old.reader scanner.new.reader }
{
    loop {
        if let Some((count, number)) = scanner.number_ahead() {
            match judge_number(header, complete, number) {
                Ok(Some(lit)) => {
                    let _ = scanner.take_number(count);
                    clause.push(lit)?;
                }
                Ok(None) => {
                    let _ = scanner.take_number(count);
                    return Ok(true);
                }
                Err(kind) => return Err(Fault::Text(kind, scanner.take_number(count))),
            }
            continue;
        }
        match scanner.next_other() {
            Ok(Token::Word(place, word)) => match judge(header, complete, word) {
                Ok(Some(lit)) => {
                    clause.push(lit)?;
                }
                Ok(None) => return Ok(true),
                Err(kind) => return Err(Fault::Text(kind, place)),
            },
            Ok(Token::LineEnd(_)) => {}
            Ok(Token::End(place)) => return at_end(header, complete, clause, place),
            Err(ReadFailed) => return Err(Fault::ReadFailed),
        }
    }
}

// A literal, or none for the `0` that ends a clause.
fn judge(header: Header, complete: u32, word: Word) -> Result<Option<Lit>, TextFault>
    ensures value { result ≡ judged header complete word }
    ensures counts { OnOk result (complete < header.clauses) }
{
    match word {
        Word::Number(number) => judge_number(header, complete, number),
        _ => Err(TextFault::BadToken),
    }
}

// The same of a number.
fn judge_number(header: Header, complete: u32, number: Number) -> Result<Option<Lit>, TextFault>
    ensures value { result ≡ judged header complete (Word.Number number) }
    ensures room { OnOk result (complete < header.clauses) }
{
    if number.size > u64::from(Lit::MAX_VAR) {
        return Err(TextFault::NumberTooLarge);
    }
    if complete >= header.clauses {
        return Err(TextFault::TooManyClauses);
    }
    if number.size > u64::from(header.vars) {
        return Err(TextFault::LiteralOutOfRange);
    }
    Ok(Lit::from_number(number))
}

// What the end of the input means.
fn at_end(header: Header, complete: u32, clause: &ClauseBuf, place: Place) -> Result<bool, Fault>
    ensures value { EndsBody result (body_at_end header complete clause.now place End) }
{
    if !clause.is_empty() {
        return Err(Fault::Text(TextFault::UnterminatedClause, place));
    }
    if complete < header.clauses {
        return Err(Fault::Text(TextFault::TooFewClauses, place));
    }
    Ok(false)
}
