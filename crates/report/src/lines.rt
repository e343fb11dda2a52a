//! The lines of a report.

ghost use Rattle.std.specs.Prelude.{◌≡◌, ◌++◌, ◌/◌, codes, decimal, IfOk};
ghost use Rattle.report.specs.Lines.{formula_line, fault_line};
ghost use Rattle.report.specs.Lines.{fault_status, word_text, trace_line};
ghost use Rattle.report.specs.Lines.{sign_text, with_cause, refusal_line, steps_line, end_line};
ghost use Rattle.report.specs.Lines.{unmet_line, clauses_line, sentence};
ghost use Rattle.report.specs.Subjects.{certificate_of};

use crate::{Line, Status, Subject, binary_kind, text_kind};
use cnf_base::{Fault, Lit, OutOfMemory, TextFault};
use dimacs::Header;
use std::alloc::Global;
use theory::{Accepted, Refusal};

/// How many variables and clauses the formula has.
pub fn formula_line(alloc: Global, header: Header) -> Result<Line, OutOfMemory>
    ensures { IfOk result (λ line. line ≡ formula_line header) }
{
    Line::new(alloc)
        .text(b"c formula ")?
        .number(u64::from(header.vars))?
        .text(b" variables ")?
        .number(u64::from(header.clauses))?
        .text(b" clauses")
}

/// What is wrong with the input of this name, and where.
pub fn fault_line(alloc: Global, name: &[u8], fault: Fault) -> Result<Line, OutOfMemory>
    ensures { IfOk result (λ line. line ≡ fault_line name.now fault) }
{
    match fault {
        Fault::Text(kind, place) => Line::new(alloc)
            .text(b"c ")?
            .text(name)?
            .text(b" ")?
            .number(place.line)?
            .text(b":")?
            .number(place.col)?
            .text(b": ")?
            .text(text_kind(kind).as_bytes()),
        Fault::Binary(kind, byte) => Line::new(alloc)
            .text(b"c ")?
            .text(name)?
            .text(b" byte ")?
            .number(byte)?
            .text(b": ")?
            .text(binary_kind(kind).as_bytes()),
        Fault::ReadFailed => Line::new(alloc).text(b"c cannot read ")?.text(name),
        Fault::OutOfMemory => Ok(Line::new(alloc)),
    }
}

/// The status that a fault has.
pub fn fault_status(fault: Fault) -> Status
    ensures { result ≡ fault_status fault }
{
    match fault {
        Fault::Text(TextFault::NotClaimed, _) | Fault::Text(TextFault::Complement, _) => {
            Status::NotVerified
        }
        Fault::Text(_, _) | Fault::Binary(_, _) => Status::Malformed,
        Fault::ReadFailed => Status::ReadFailed,
        Fault::OutOfMemory => Status::OutOfMemory,
    }
}

/// The accepted step of this number.
pub fn trace_line(alloc: Global, number: u64, word: Accepted) -> Result<Line, OutOfMemory>
    ensures { IfOk result (λ line. line ≡ trace_line number word) }
{
    Line::new(alloc)
        .text(b"c ")?
        .number(number)?
        .text(word_text(word))
}

/// The refused step of this number, with its cause.
pub fn refusal_line(alloc: Global, number: u64, refusal: Refusal) -> Result<Line, OutOfMemory>
    ensures { IfOk result (λ line. line ≡ refusal_line number refusal) }
{
    let line = Line::new(alloc)
        .text(b"c step ")?
        .number(number)?
        .text(b": ")?;
    with_cause(line, refusal)
}

/// A verified proof of so many steps.
pub fn steps_line(alloc: Global, number: u64, peak: u64) -> Result<Line, OutOfMemory>
    ensures { IfOk result (λ line. line ≡ steps_line number peak) }
{
    Line::new(alloc)
        .text(b"c steps ")?
        .number(number)?
        .text(b" peak ")?
        .number(peak)
}

/// A proof that ends without an empty clause.
pub fn end_line(alloc: Global) -> Result<Line, OutOfMemory>
    ensures { IfOk result (λ line. line ≡ end_line) }
{
    Line::new(alloc).text(b"c end: no empty clause")
}

/// The clause of this number, which has no true literal.
pub fn unmet_line(alloc: Global, number: u64) -> Result<Line, OutOfMemory>
    ensures { IfOk result (λ line. line ≡ unmet_line number) }
{
    Line::new(alloc)
        .text(b"c clause ")?
        .number(number)?
        .text(b" is not satisfied")
}

/// A verified model of so many clauses.
pub fn clauses_line(alloc: Global, number: u64) -> Result<Line, OutOfMemory>
    ensures { IfOk result (λ line. line ≡ clauses_line number) }
{
    Line::new(alloc).text(b"c clauses ")?.number(number)
}

/// The verdict's last line.
pub fn sentence(subject: Subject, status: Status) -> &'static [u8]
    ensures { result.now ≡ sentence (certificate_of subject) status }
{
    match status {
        Status::Verified => verified_sentence(subject),
        _ => unverified_sentence(subject),
    }
}

fn verified_sentence(subject: Subject) -> &'static [u8]
    ensures { result.now ≡ sentence (certificate_of subject) Status.Verified }
{
    match subject {
        Subject::Proof => b"s VERIFIED",
        Subject::Model => b"s MODEL VERIFIED",
    }
}

fn unverified_sentence(subject: Subject) -> &'static [u8]
    ensures { (status : Status) → (status ≡ Status.Verified → ⊥) →
        result.now ≡ sentence (certificate_of subject) status }
{
    match subject {
        Subject::Proof => b"s NOT VERIFIED",
        Subject::Model => b"s MODEL NOT VERIFIED",
    }
}

fn with_cause(line: Line, refusal: Refusal) -> Result<Line, OutOfMemory>
    ensures { IfOk result (λ whole. whole ≡ with_cause line refusal) }
{
    match refusal {
        Refusal::NotRup => line.text(b"not RUP"),
        Refusal::NeitherRupNorRat(pivot) => with_pivot(line, pivot),
        Refusal::NotAlive => line.text(b"clause is not alive"),
        Refusal::InconsistentSet => line.text(b"set holds a literal and its complement"),
        Refusal::NeitherRupNorPr => line.text(b"neither RUP nor PR"),
        Refusal::IdOutOfOrder => line.text(b"identifier is not above all earlier ones"),
        Refusal::UnknownId(id) => line.text(b"unknown id ")?.number(id),
        Refusal::NotUnit(id) => with_id(line, b"hint ", id, b" is not unit"),
        Refusal::NotCandidate(id) => {
            with_id(line, b"clause ", id, b" does not hold the complement")
        }
        Refusal::NamedTwice(id) => with_id(line, b"clause ", id, b" is named twice"),
        Refusal::GroupWithoutConflict(id) => with_id(line, b"group ", id, b" has no conflict"),
        Refusal::Unnamed(id) => {
            with_id(
                line,
                b"clause ",
                id,
                b" holds the complement and is not named",
            )
        }
        Refusal::NoConflict => line.text(b"no conflict"),
        Refusal::OutOfMemory | Refusal::Ended => Ok(line),
    }
}

fn with_id(line: Line, before: &[u8], id: u64, after: &[u8]) -> Result<Line, OutOfMemory>
    ensures { IfOk result (λ whole. whole ≡ line ++ before.now ++ decimal id ++ after.now) }
{
    line.text(before)?.number(id)?.text(after)
}

fn with_pivot(line: Line, pivot: Lit) -> Result<Line, OutOfMemory>
    ensures { IfOk result (λ whole. whole ≡ line ++ codes "neither RUP nor RAT on " ++
        sign_text pivot ++ decimal (pivot / 2)) }
{
    let variable = u64::from(pivot.var());
    line.text(b"neither RUP nor RAT on ")?
        .text(sign_text(pivot))?
        .number(variable)
}

fn sign_text(literal: Lit) -> &'static [u8]
    ensures { result.now ≡ sign_text literal }
{
    if literal.index() % 2 == 0 { b"" } else { b"-" }
}

fn word_text(word: Accepted) -> &'static [u8]
    ensures { result.now ≡ word_text word }
{
    match word {
        Accepted::Rup | Accepted::Empty => b" add rup",
        Accepted::Rat => b" add rat",
        Accepted::Pr => b" add pr",
        Accepted::Deleted => b" delete",
        Accepted::Ignored => b" ignored",
    }
}
