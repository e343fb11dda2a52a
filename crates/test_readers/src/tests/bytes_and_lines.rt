//! Bytes and tokens with their places, and lines out.

use cnf_base::{FromRead, Number, Place, ReadFailed, Scanner, Token, Word};
use std::test::Fail;
use test_inputs::{
    Bytes, Cut, Pieces, SIZES, Stop, Writer, expect_equal, expect_equal_at, fail_at, open, text,
};
use writers::{LineOut, ToWrite, WriteFailed};

// The byte, if there is one, its place and its number.
fn expect_byte(
    source: &mut Bytes<'_>,
    byte: Option<u8>,
    place: (u64, u64),
    number: u64,
) -> Result<(), Fail> {
    let (line, col) = place;
    expect_equal(source.place(), Place { line, col })?;
    expect_equal(source.byte_no(), number)?;
    for _ in 0..2 {
        expect_equal(source.peek(), Ok(byte))?;
    }
    Ok(())
}

fn take(source: &mut Bytes<'_>) -> Result<(), Fail> {
    match source.peek() {
        Ok(Some(_)) => source.bump(),
        Ok(None) | Err(ReadFailed) => fail_at("no byte")?,
    }
    Ok(())
}

const PLACES: [(u8, u64, u64); 6] = [
    (b'a', 1, 1),
    (b'\n', 1, 2),
    (b'\r', 2, 1),
    (b'\n', 2, 2),
    (b'\n', 3, 1),
    (b'b', 4, 1),
];

#[test]
fn bytes(rt: HostRuntime) -> Result<(), Fail> {
    for size in SIZES {
        let mut source = open(rt.alloc(), b"a\n\r\n\nb", size, Cut::Ends)?;
        let mut number = 1u64;
        for (byte, line, col) in PLACES {
            expect_byte(&mut source, Some(byte), (line, col), number)?;
            take(&mut source)?;
            number = number.saturating_add(1);
        }
        expect_byte(&mut source, None, (4, 2), 7)?;
        let _ = source.release();
    }
    Ok(())
}

#[test]
fn failed_read(rt: HostRuntime) -> Result<(), Fail> {
    let mut source = open(rt.alloc(), b"a", 7, Cut::Fails)?;
    expect_byte(&mut source, Some(b'a'), (1, 1), 1)?;
    take(&mut source)?;
    for _ in 0..2 {
        expect_equal(source.peek(), Err(ReadFailed))?;
    }
    expect_equal(source.byte_no(), 2)?;
    let _ = source.release();
    Ok(())
}

const fn word_token(line: u64, col: u64, word: Word) -> Token {
    Token::Word(Place { line, col }, word)
}

const fn number(is_negative: bool, size: u64) -> Word {
    Word::Number(Number { is_negative, size })
}

fn expect_tokens(
    scanner: &mut Scanner<FromRead<Pieces<'_>>>,
    tokens: &[Token],
) -> Result<(), Fail> {
    for token in tokens {
        expect_equal(scanner.next(), Ok(*token))?;
    }
    Ok(())
}

#[test]
fn tokens(rt: HostRuntime) -> Result<(), Fail> {
    let text = "p\tcnf 12 -7\nc a comment\n d s v -0\r0\nSATISFIABLE UNSATISFIABLE UNKNOWN\n\
            18446744073709551615";
    let tokens = [
        word_token(1, 1, Word::P),
        word_token(1, 3, Word::Cnf),
        word_token(1, 7, number(false, 12)),
        word_token(1, 10, number(true, 7)),
        Token::LineEnd(Place { line: 1, col: 12 }),
        word_token(3, 2, Word::D),
        word_token(3, 4, Word::S),
        word_token(3, 6, Word::V),
        word_token(3, 8, Word::Other),
        word_token(3, 11, number(false, 0)),
        Token::LineEnd(Place { line: 3, col: 12 }),
        word_token(4, 1, Word::Satisfiable),
        word_token(4, 13, Word::Unsatisfiable),
        word_token(4, 27, Word::Unknown),
        Token::LineEnd(Place { line: 4, col: 34 }),
        word_token(5, 1, number(false, u64::MAX)),
        Token::End(Place { line: 5, col: 21 }),
        Token::End(Place { line: 5, col: 21 }),
    ];
    for size in SIZES {
        let mut scanner = Scanner::new(open(rt.alloc(), text.as_bytes(), size, Cut::Ends)?);
        expect_tokens(&mut scanner, &tokens)?;
        let _ = scanner.release();
    }
    Ok(())
}

// A token that a failed read follows isn't given.
#[test]
fn tokens_before_a_failed_read(rt: HostRuntime) -> Result<(), Fail> {
    let mut scanner = Scanner::new(open(rt.alloc(), b"1 2", 7, Cut::Fails)?);
    expect_tokens(&mut scanner, &[word_token(1, 1, number(false, 1))])?;
    for _ in 0..2 {
        expect_equal(scanner.next(), Err(ReadFailed))?;
    }
    let _ = scanner.release();
    Ok(())
}

#[test]
fn lines(rt: HostRuntime) -> Result<(), Fail> {
    let mut writer = Writer::byte_a_call(rt.alloc());
    let mut lines = LineOut::new(ToWrite::new(&mut writer));
    expect_equal(lines.line(b"one"), Ok(()))?;
    expect_equal(lines.line(b""), Ok(()))?;
    expect_equal(lines.line(b"three"), Ok(()))?;
    expect_equal(lines.finish(), Ok(()))?;
    let _ = lines.release();
    let written = text(rt.alloc(), writer.taken.as_slice())?;
    expect_equal(written.as_str(), "one\n\nthree\n")
}

// The bytes of a line, and how often the writer is given some of it, where it takes all that it is
// given.
const WRITES: [(usize, usize); 5] = [(0, 1), (1, 1), (127, 1), (128, 2), (200, 2)];

// A line of ordinary length is handed over together with its line feed.
#[test]
fn writes(rt: HostRuntime) -> Result<(), Fail> {
    let bytes = [b'x'; 200];
    for (length, writes) in WRITES {
        let mut writer = Writer::new(rt.alloc(), usize::MAX, Stop::TakesNone);
        let mut lines = LineOut::new(ToWrite::new(&mut writer));
        expect_equal(lines.line(bytes.get(..length).unwrap_or(&bytes)), Ok(()))?;
        let _ = lines.release();
        expect_equal_at(length, writer.writes, writes)?;
        expect_equal(writer.taken.len(), length.saturating_add(1))?;
        expect_equal(writer.taken.last(), Some(&b'\n'))?;
    }
    Ok(())
}

// Nothing is written after a failure.
#[test]
fn failed_write(rt: HostRuntime) -> Result<(), Fail> {
    let mut writer = Writer::new(rt.alloc(), 6, Stop::FailsOnce);
    let mut lines = LineOut::new(ToWrite::new(&mut writer));
    expect_equal(lines.line(b"one"), Ok(()))?;
    expect_equal(lines.line(b"two"), Err(WriteFailed))?;
    expect_equal(lines.line(b"three"), Err(WriteFailed))?;
    expect_equal(lines.finish(), Err(WriteFailed))?;
    let _ = lines.release();
    let written = text(rt.alloc(), writer.taken.as_slice())?;
    expect_equal(written.as_str(), "one\ntw")
}
