//! What an input is, as its first bytes show.

ghost use Rattle.std.specs.Prelude.{◌≡◌, false};
ghost use Rattle.hints.specs.Kinds.{Shows, encoding_of, is_marked, marked_kind};

use crate::encoding::Encoding;
use crate::kind::Kind;
use crate::lines::{first_line, is_answer, is_drat_text, is_lrat_text};
use crate::tokens::{begins_with_number, is_frat_line, is_separator};

/// What an input is, by its first bytes from the first line on that is neither blank nor a comment,
/// if they show it.
pub fn kind_of(first: &[u8]) -> Option<Kind>
    ensures { Shows first.now result }
{
    marked_kind(first)
        .or_else(|| formula_kind(first))
        .or_else(|| binary_kind(first))
        .or_else(|| text_kind(first))
}

// By bytes with which this kind alone begins.
fn marked_kind(first: &[u8]) -> Option<Kind>
    ensures { result ≡ marked_kind first.now }
{
    if first.is_empty() {
        Some(Kind::Empty)
    } else if let Some(encoding) = encoding_of(first) {
        Some(Kind::Encoded(encoding))
    } else if first.starts_with(b"<!")
        || first.starts_with(b"<?")
        || first.starts_with(b"<h")
        || first.starts_with(b"<H")
    {
        Some(Kind::Html)
    } else if first.starts_with(b"* #variable=") || first.starts_with(b"min:") {
        Some(Kind::Opb)
    } else if first.starts_with(b"pseudo-Boolean proof") {
        Some(Kind::VeriPb)
    } else if first.starts_with(b"o proof ") {
        Some(Kind::ProofLine)
    } else {
        None
    }
}

// By the numbers with which each encoding begins.
fn encoding_of(first: &[u8]) -> Option<Encoding>
    ensures { result ≡ encoding_of first.now }
{
    if first.starts_with(&[0x1f, 0x8b]) {
        Some(Encoding::Gzip)
    } else if first.starts_with(&[0xfd, 0x37, 0x7a, 0x58, 0x5a]) {
        Some(Encoding::Xz)
    } else if first.starts_with(b"BZh") {
        Some(Encoding::Bzip2)
    } else if first.starts_with(&[0x28, 0xb5, 0x2f, 0xfd]) {
        Some(Encoding::Zstd)
    } else if first.starts_with(&[0xef, 0xbb, 0xbf]) {
        Some(Encoding::Utf8Mark)
    } else if first.starts_with(&[0xff, 0xfe]) || first.starts_with(&[0xfe, 0xff]) {
        Some(Encoding::Utf16)
    } else {
        None
    }
}

// By a problem line of DIMACS.
fn formula_kind(first: &[u8]) -> Option<Kind>
    ensures { is_marked result ≡ false }
{
    if is_problem_line(first, b"cnf") {
        Some(Kind::Cnf)
    } else if is_problem_line(first, b"wcnf") || is_hard_clause(first) {
        Some(Kind::Wcnf)
    } else {
        None
    }
}

// Whether the bytes begin with a `p`, blanks, this name, and a separator.
fn is_problem_line(first: &[u8], name: &[u8]) -> bool {
    let Some(after) = first.strip_prefix(b"p") else {
        return false;
    };
    let blanks = after
        .iter()
        .take_while(|byte| **byte == b' ' || **byte == b'\t')
        .count();
    match after[blanks..].strip_prefix(name) {
        Some([next, ..]) => blanks > 0 && is_separator(*next),
        _ => false,
    }
}

// Whether the bytes begin with a hard clause, as weighted formulas do since 2022.
fn is_hard_clause(first: &[u8]) -> bool {
    match first {
        [b'h', b' ', next, ..] => *next == b'-' || next.is_ascii_digit(),
        _ => false,
    }
}

// By the tag of a step, where bytes 00 end its parts.
fn binary_kind(first: &[u8]) -> Option<Kind>
    ensures { is_marked result ≡ false }
{
    if !first.contains(&0) {
        return None;
    }
    match first {
        [b'o', ..] => Some(Kind::FratBinary),
        [b'a' | b'd', ..] if ends_steps(first) => Some(Kind::DratBinary),
        [b'a' | b'd', ..] => Some(Kind::OtherBinary),
        _ => None,
    }
}

// Whether a tag follows each byte 00, unless that is the last byte.
fn ends_steps(first: &[u8]) -> bool {
    first.windows(2).all(|pair| !matches!(pair, [0, next] if *next != b'a' && *next != b'd'))
}

// By the lines.
fn text_kind(first: &[u8]) -> Option<Kind>
    ensures { is_marked result ≡ false }
{
    if first_line(first).is_some_and(is_frat_line) {
        Some(Kind::FratText)
    } else if is_minisat_result(first) {
        Some(Kind::MinisatResult)
    } else if is_clasp_text(first) {
        Some(Kind::ClaspText)
    } else if is_answer(first) {
        Some(Kind::Output)
    } else if is_lrat_text(first) {
        Some(Kind::LratText)
    } else if is_drat_text(first) {
        Some(Kind::DratText)
    } else if begins_with_number(first) {
        Some(Kind::Number)
    } else {
        None
    }
}

// Whether the first line is what MiniSat writes first into its result file.
fn is_minisat_result(first: &[u8]) -> bool {
    first.starts_with(b"SAT\n")
        || first.starts_with(b"SAT\r\n")
        || first.starts_with(b"UNSAT\n")
        || first.starts_with(b"UNSAT\r\n")
        || first.starts_with(b"INDET\n")
        || first.starts_with(b"INDET\r\n")
}

// Whether these are clasp's first lines. The one before them, with its version, begins with a `c`,
// as a comment does.
fn is_clasp_text(first: &[u8]) -> bool {
    first.starts_with(b"Reading from ")
}
