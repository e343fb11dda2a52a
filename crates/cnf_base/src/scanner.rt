//! A text's tokens, with their places.
ghost use Rattle.std.specs.Prelude.{◌≡◌, ◌<◌, ◌≤◌, ◌==◌, ◌&&◌, true, IfSome, OnOk, OnErr, length};
ghost use Rattle.std.specs.Prelude.{slice_index};
ghost use Rattle.cnf_base.specs.Stream.{Along, most_to_come, tells_failure};
ghost use Rattle.cnf_base.specs.Code.Digits.{begins_number};
ghost use Rattle.cnf_base.specs.Ahead.{IsNumberAhead, TakesNumber};
ghost use Rattle.cnf_base.specs.Text.{Gives, is_separator, listing_at, MovesOn};
ghost use Rattle.cnf_base.specs.declared.word.Number.{Number};
ghost use Rattle.cnf_base.specs.Code.Text.{BeginsRun, TakesWord, FailsAt, comment_at};

mod digits;
mod eight;
mod name;
mod run;
mod whole;

use crate::{In, Number, Place, ReadFailed, Source, Token, Word};
use name::Name;
use run::{Numeral, Run};
use std::marker::Model;
use whole::{ROOM, whole_number};

/// The tokens of a text in order. Comment lines have none.
#[derive(Drop)]
pub struct Scanner<R: In> {
    source: Source<R>,
    // The first bytes of a word that is read byte by byte.
    name: Name,
}

impl<R: In> Model for Scanner<R> {
    ghost use Rattle.std.specs.Prelude.{◌≤◌, length};
    ghost use Rattle.cnf_base.specs.Stream.{Stream};

    ghost Value = { Stream };

    ghost view = { λ s. s.source };

    // Each field has to be named here, those of the name too: beside its source a scanner holds at
    // most 16 bytes of a token.
    ghost invariant = { λ record {
      source = _;
      name = record { bytes = bytes; len = _; is_longer = _; most = _ };
    }. length bytes ≤ 16 };
}

impl<R: In> Scanner<R> {
    pub fn new(source: Source<R>) -> Self
        ensures { result ≡ source }
    {
        Scanner {
            source,
            name: Name::new(),
        }
    }

    /// The next token. A failed read, and the end, are given at each further call.
    #[inline(always)]
    pub fn next(&mut self) -> Result<Token, ReadFailed>
        ensures tokens { Along self.old self.new
            (λ i j. Gives result (listing_at self.old.place i) (listing_at self.new.place j) j) }
        ensures fewer { MovesOn result self.old self.new }
        ensures failed { OnErr result (tells_failure self.new.reader ≡ true) }
        ensures mark { OnOk result
            (tells_failure self.new.reader ≡ tells_failure self.old.reader) }
    {
        next_token(&mut self.source, &mut self.name)
    }

    /// The next token, as [`Scanner::next`] gives it, where [`Scanner::number_ahead`] has none.
    #[inline(always)]
    pub fn next_other(&mut self) -> Result<Token, ReadFailed>
        ensures tokens { Along self.old self.new
            (λ i j. Gives result (listing_at self.old.place i) (listing_at self.new.place j) j) }
        ensures fewer { MovesOn result self.old self.new }
        ensures failed { OnErr result (tells_failure self.new.reader ≡ true) }
        ensures mark { OnOk result
            (tells_failure self.new.reader ≡ tells_failure self.old.reader) }
    {
        any_token(&mut self.source, &mut self.name)
    }

    /// The number that is the next token, where one space stands before it or nothing and all of it
    /// was read, as nearly all tokens of a proof do: how many bytes both have, and what it says. It
    /// takes nothing.
    #[inline(always)]
    pub fn number_ahead(&self) -> Option<(usize, Number)>
        ensures { IfSome result (λ r. IsNumberAhead self.now r.0 r.1) }
    {
        number_ahead(&self.source)
    }

    /// Takes the number that is ahead, and tells where it stands. Who doesn't ask for the place pays
    /// nothing for it.
    #[inline(always)]
    pub fn take_number(&mut self, count: usize) -> Place
        requires { (number : Number) × IsNumberAhead self.old count number }
        ensures taken { (number : Number) → IsNumberAhead self.old count number →
            TakesNumber result number self.old self.new }
        ensures fewer { most_to_come self.new < most_to_come self.old }
        ensures mark { tells_failure self.new.reader ≡ tells_failure self.old.reader }
    {
        take_number(&mut self.source, count)
    }

    /// Gives the reader back.
    pub fn release(self) -> R
        ensures reader { R.shown result ≡ self.reader }
        ensures same_reader { R.borrows result ≡ self.borrows }
    {
        self.source.release()
    }
}

// The number that stands whole after one space, or without one.
#[inline(always)]
fn number_ahead<R: In>(source: &Source<R>) -> Option<(usize, Number)>
    ensures { IfSome result (λ r. IsNumberAhead source.now r.0 r.1) }
{
    let ahead = source.ahead();
    if ahead.len() < 1 + ROOM {
        return None;
    }
    if ahead[0] != b' ' {
        return whole_number(ahead);
    }
    let (count, number) = whole_number(&ahead[1..])?;
    Some((1 + count, number))
}

// Takes the number that is ahead, and tells where it stands. The place in the piece is written once,
// since the next token waits for it.
#[inline(always)]
fn take_number<R: In>(source: &mut Source<R>, count: usize) -> Place
    requires { (number : Number) × IsNumberAhead source.old count number }
    ensures taken { (number : Number) → IsNumberAhead source.old count number →
        TakesNumber result number source.old source.new }
    ensures fewer { most_to_come source.new < most_to_come source.old }
    ensures mark { tells_failure source.new.reader ≡ tells_failure source.old.reader }
{
    if source.ahead()[0] == b' ' {
        let _from_one = source.place();
        source.bump_in_line();
        let place = source.place();
        source.skip_in_line(count - 1);
        return place;
    }
    let place = source.place();
    source.skip_in_line(count);
    place
}

// The text's next token.
#[inline(always)]
fn next_token<R: In>(source: &mut Source<R>, name: &mut Name) -> Result<Token, ReadFailed>
    ensures tokens { Along source.old source.new
        (λ i j. Gives result (listing_at source.old.place i) (listing_at source.new.place j) j) }
    ensures fewer { MovesOn result source.old source.new }
    ensures failed { OnErr result (tells_failure source.new.reader ≡ true) }
    ensures mark { OnOk result
        (tells_failure source.new.reader ≡ tells_failure source.old.reader) }
{
    if let Some((count, number)) = number_ahead(source) {
        let place = take_number(source, count);
        return Ok(Token::Word(place, Word::Number(number)));
    }
    any_token(source, name)
}

// The same, whatever the token is. It stands apart, as the room that it clears for a word would else
// be cleared for each number too.
#[inline(always)]
fn any_token<R: In>(source: &mut Source<R>, name: &mut Name) -> Result<Token, ReadFailed>
    ensures tokens { Along source.old source.new
        (λ i j. Gives result (listing_at source.old.place i) (listing_at source.new.place j) j) }
    ensures fewer { MovesOn result source.old source.new }
    ensures failed { OnErr result (tells_failure source.new.reader ≡ true) }
    ensures mark { OnOk result
        (tells_failure source.new.reader ≡ tells_failure source.old.reader) }
{
    loop {
        match source.peek() {
            Ok(Some(byte)) => {
                if is_separator(byte) {
                    let place = source.place();
                    source.bump();
                    if byte == b'\n' {
                        return Ok(Token::LineEnd(place));
                    }
                } else if begins_comment(byte, source.place()) {
                    source.bump_in_line();
                    if skip_comment(source).is_err() {
                        return Err(ReadFailed);
                    }
                } else {
                    let place = source.place();
                    if byte == b'd' && separator_follows(source.ahead()) {
                        source.bump_in_line();
                        return Ok(Token::Word(place, Word::D));
                    }
                    if let Some((count, number)) = whole_number(source.ahead()) {
                        source.skip_in_line(count);
                        return Ok(Token::Word(place, Word::Number(number)));
                    }
                    return Ok(Token::Word(place, read_word(source, name, byte)?));
                }
            }
            Ok(None) => return Ok(Token::End(source.place())),
            Err(failed) => return Err(failed),
        }
    }
}

// Goes past a comment's line feed, or to the end.
#[inline(never)]
fn skip_comment<R: In>(source: &mut Source<R>) -> Result<(), ReadFailed>
    ensures text { Along source.old source.new (λ i j.
        (comment_at source.old.place i ≡ listing_at source.new.place j) × FailsAt result j) }
    ensures fewer { most_to_come source.new ≤ most_to_come source.old }
    ensures failed { OnErr result (tells_failure source.new.reader ≡ true) }
    ensures mark { OnOk result
        (tells_failure source.new.reader ≡ tells_failure source.old.reader) }
{
    while let Some(byte) = source.peek()? {
        source.bump();
        if byte == b'\n' {
            return Ok(());
        }
    }
    Ok(())
}

// The run that begins with the byte that was shown.
#[inline(never)]
fn read_word<R: In>(source: &mut Source<R>, name: &mut Name, first: u8) -> Result<Word, ReadFailed>
    requires { BeginsRun source.old first }
    ensures { TakesWord result source.old source.new }
{
    if may_begin_number(first) {
        read_run(source, &mut Numeral::new(), first)
    } else {
        read_run(source, name, first)
    }
}

// The run that begins with the byte that was shown, byte by byte.
fn read_run<R: In, W: Run>(
    source: &mut Source<R>,
    run: &mut W,
    first: u8,
) -> Result<Word, ReadFailed>
    requires run { BeginsRun source.old first }
    requires kind { W.begins first }
    ensures { TakesWord result source.old source.new }
{
    source.bump();
    run.begin(first);
    loop {
        match source.peek() {
            Ok(Some(byte)) => {
                if is_separator(byte) {
                    return Ok(run.says());
                }
                source.bump_in_line();
                run.add(byte);
            }
            Ok(None) => return Ok(run.says()),
            Err(cut) => return Err(cut),
        }
    }
}

// Whether a number may begin with the byte.
fn may_begin_number(byte: u8) -> bool
    ensures { result ≡ begins_number byte }
{
    byte == b'-' || byte.is_ascii_digit()
}

// Whether a comment begins with the byte.
#[inline(always)]
fn begins_comment(byte: u8, place: Place) -> bool
    ensures { result ≡ ((place.col == 1) && (byte == 99)) }
{
    byte == b'c' && place.col == 1
}

// Whether a separator follows the first of the bytes, and was read with it.
#[inline(always)]
fn separator_follows(bytes: &[u8]) -> bool
    ensures long { result ≡ true → 2 ≤ length bytes.now }
    ensures separator { result ≡ true → is_separator (slice_index bytes.now 1) ≡ true }
{
    bytes.len() > 1 && is_separator(bytes[1])
}

#[inline(always)]
fn is_separator(byte: u8) -> bool
    ensures { result ≡ is_separator byte }
{
    byte == b' ' || byte == b'\t' || byte == b'\r' || byte == b'\n'
}
