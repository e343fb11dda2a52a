//! The header of a formula: `p cnf VARIABLES CLAUSES`.
//!
//! Its numbers reserve no memory: they are limits that the clauses are held to.

ghost use Rattle.std.specs.Prelude.{◌≡◌, ◌≢◌, ◌≤◌, if◌then◌else◌, IfOk};
ghost use Rattle.cnf_base.specs.Stream.{Along, most_to_come};
ghost use Rattle.cnf_base.specs.Text.{listing_at};
ghost use Rattle.cnf_base.specs.Readers.{TellsOf};
ghost use Rattle.dimacs.specs.Formula.{and_then, skip_blank, next_word, is_p, is_cnf, fixed};
ghost use Rattle.dimacs.specs.Formula.{count_of, count, line_end, header_of};
ghost use Rattle.dimacs.specs.Code.Reading.{GivesHeader, GivesPart};

use cnf_base::{Fault, In, Place, ReadFailed, Scanner, TextFault, Token, Word};

/// What a formula's first line says: the number of variables, and that of clauses.
#[derive(Clone, Copy, Debug, PartialEq, Eq)]
pub struct Header {
    pub vars: u32,
    pub clauses: u32,
}

const MOST_VARS: u64 = 268435455;

const MOST_CLAUSES: u64 = 4294967295;

// `p cnf VARIABLES CLAUSES`, up to the line's end.
pub(crate) fn read_header<R: In>(scanner: &mut Scanner<R>) -> Result<Header, Fault>
    ensures header { Along scanner.old scanner.new (λ i j.
        GivesHeader result (header_of (listing_at scanner.old.place i))
        (listing_at scanner.new.place j) j) }
    ensures fewer { most_to_come scanner.new ≤ most_to_come scanner.old }
    ensures tells { TellsOf result scanner.old.reader scanner.new.reader }
    ensures limit { IfOk result (λ h. h.vars ≤ 268435455) }
{
    if let Err(fault) = read_p(scanner) {
        return Err(fault);
    }
    if let Err(fault) = read_cnf(scanner) {
        return Err(fault);
    }
    let vars = match read_count(scanner, MOST_VARS) {
        Ok(vars) => vars,
        Err(fault) => return Err(fault),
    };
    let clauses = match read_count(scanner, MOST_CLAUSES) {
        Ok(clauses) => clauses,
        Err(fault) => return Err(fault),
    };
    if let Err(fault) = read_line_end(scanner) {
        return Err(fault);
    }
    Ok(Header {
        vars: vars as u32,
        clauses: clauses as u32,
    })
}

// The word `p`, at the start of the first line that is no comment and not blank.
fn read_p<R: In>(scanner: &mut Scanner<R>) -> Result<(), Fault>
    ensures text { Along scanner.old scanner.new (λ i j.
        GivesPart (fixed is_p) (skip_blank (listing_at scanner.old.place i))
        (and_then result (λ _. Ok (listing_at scanner.new.place j))) j) }
    ensures fewer { most_to_come scanner.new ≤ most_to_come scanner.old }
    ensures tells { TellsOf result scanner.old.reader scanner.new.reader }
{
    let (place, word) = first_word(scanner)?;
    wanted(is_p(word), place)
}

// The word `cnf`.
fn read_cnf<R: In>(scanner: &mut Scanner<R>) -> Result<(), Fault>
    ensures text { Along scanner.old scanner.new (λ i j.
        GivesPart (fixed is_cnf) (listing_at scanner.old.place i)
        (and_then result (λ _. Ok (listing_at scanner.new.place j))) j) }
    ensures fewer { most_to_come scanner.new ≤ most_to_come scanner.old }
    ensures tells { TellsOf result scanner.old.reader scanner.new.reader }
{
    let (place, word) = next_word(scanner)?;
    wanted(is_cnf(word), place)
}

// A number of variables or clauses.
fn read_count<R: In>(scanner: &mut Scanner<R>, limit: u64) -> Result<u64, Fault>
    ensures text { Along scanner.old scanner.new (λ i j.
        GivesPart (count limit) (listing_at scanner.old.place i)
        (and_then result (λ n. Ok (n, listing_at scanner.new.place j))) j) }
    ensures fewer { most_to_come scanner.new ≤ most_to_come scanner.old }
    ensures tells { TellsOf result scanner.old.reader scanner.new.reader }
    ensures limit { IfOk result (λ n. n ≤ limit) }
{
    let (place, number) = next_word(scanner)?;
    count_of(limit, place, number)
}

// The line's end, or the input's.
fn read_line_end<R: In>(scanner: &mut Scanner<R>) -> Result<(), Fault>
    ensures text { Along scanner.old scanner.new (λ i j.
        GivesPart line_end (listing_at scanner.old.place i)
        (and_then result (λ _. Ok (listing_at scanner.new.place j))) j) }
    ensures fewer { most_to_come scanner.new ≤ most_to_come scanner.old }
    ensures tells { TellsOf result scanner.old.reader scanner.new.reader }
{
    match scanner.next() {
        Ok(Token::LineEnd(_)) | Ok(Token::End(_)) => Ok(()),
        Ok(Token::Word(place, _)) => Err(Fault::Text(TextFault::BadHeader, place)),
        Err(ReadFailed) => Err(Fault::ReadFailed),
    }
}

// The first word of the first line that isn't blank.
fn first_word<R: In>(scanner: &mut Scanner<R>) -> Result<(Place, Word), Fault>
    ensures text { Along scanner.old scanner.new (λ i j.
        GivesPart next_word (skip_blank (listing_at scanner.old.place i))
        (and_then result (λ w. Ok (w.0, w.1, listing_at scanner.new.place j))) j) }
    ensures fewer { most_to_come scanner.new ≤ most_to_come scanner.old }
    ensures tells { TellsOf result scanner.old.reader scanner.new.reader }
{
    loop {
        match scanner.next() {
            Ok(Token::Word(place, word)) => return Ok((place, word)),
            Ok(Token::LineEnd(_)) => {}
            Ok(Token::End(place)) => return Err(Fault::Text(TextFault::BadHeader, place)),
            Err(ReadFailed) => return Err(Fault::ReadFailed),
        }
    }
}

// The line's next word.
fn next_word<R: In>(scanner: &mut Scanner<R>) -> Result<(Place, Word), Fault>
    ensures text { Along scanner.old scanner.new (λ i j.
        GivesPart next_word (listing_at scanner.old.place i)
        (and_then result (λ w. Ok (w.0, w.1, listing_at scanner.new.place j))) j) }
    ensures fewer { most_to_come scanner.new ≤ most_to_come scanner.old }
    ensures tells { TellsOf result scanner.old.reader scanner.new.reader }
{
    match scanner.next() {
        Ok(Token::Word(place, word)) => Ok((place, word)),
        Ok(Token::LineEnd(place)) | Ok(Token::End(place)) => {
            Err(Fault::Text(TextFault::BadHeader, place))
        }
        Err(ReadFailed) => Err(Fault::ReadFailed),
    }
}

// Whether the word at the place is the one that must stand there.
fn wanted(is_right: bool, place: Place) -> Result<(), Fault>
    ensures { result ≡ if is_right then Ok tt else Err (Fault.Text TextFault.BadHeader place) }
{
    if is_right {
        return Ok(());
    }
    Err(Fault::Text(TextFault::BadHeader, place))
}

// A number without a sign, up to the limit.
fn count_of(limit: u64, place: Place, word: Word) -> Result<u64, Fault>
    ensures value { result ≡ count_of limit place word }
    ensures limit { IfOk result (λ n. n ≤ limit) }
    ensures read { result ≢ Err Fault.ReadFailed }
{
    let Word::Number(number) = word else {
        return Err(Fault::Text(TextFault::BadHeader, place));
    };
    if number.is_negative {
        return Err(Fault::Text(TextFault::BadHeader, place));
    }
    if number.size > limit {
        return Err(Fault::Text(TextFault::NumberTooLarge, place));
    }
    Ok(number.size)
}

fn is_p(word: Word) -> bool
    ensures { result ≡ is_p word }
{
    matches!(word, Word::P)
}

fn is_cnf(word: Word) -> bool
    ensures { result ≡ is_cnf word }
{
    matches!(word, Word::Cnf)
}
