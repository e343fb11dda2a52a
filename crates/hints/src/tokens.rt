//! The tokens of a line, and what steps they are.

/// A space, a tab, or an end of a line.
pub(crate) fn is_separator(byte: u8) -> bool {
    matches!(byte, b' ' | b'\t' | b'\r' | b'\n')
}

/// Whether there is nothing but separators.
pub(crate) fn is_blank(bytes: &[u8]) -> bool {
    bytes.iter().all(|byte| is_separator(*byte))
}

fn is_token(piece: &&[u8]) -> bool {
    !piece.is_empty()
}

fn first_token(line: &[u8]) -> Option<&[u8]> {
    line.split(|byte| is_separator(*byte)).find(is_token)
}

/// Whether the line is a step of DRAT: maybe a `d`, literals, and a `0`.
pub(crate) fn is_drat_line(line: &[u8]) -> bool {
    let mut begins = true;
    let mut ended = false;
    for token in line.split(|byte| is_separator(*byte)).filter(is_token) {
        if ended || !(is_number(token) || begins && is_d(token)) {
            return false;
        }
        begins = false;
        ended = is_zero(token);
    }
    ended
}

/// Whether the line is a step of LRAT: an identifier, and then a clause and one hint at least, each
/// with a `0` behind, or a `d`, identifiers and a `0`.
pub(crate) fn is_lrat_line(line: &[u8]) -> bool {
    let mut place = LratPlace::Id;
    for token in line.split(|byte| is_separator(*byte)).filter(is_token) {
        let Some(next) = place.after(token) else {
            return false;
        };
        place = next;
    }
    place == LratPlace::End
}

// Where a line of LRAT goes on.
#[derive(Clone, Copy, Debug, PartialEq, Eq)]
enum LratPlace {
    Id,
    // Behind the identifier.
    Step,
    Literals,
    // Behind the clause.
    Hints,
    // Behind one hint at least.
    MoreHints,
    Deleted,
    End,
}

impl LratPlace {
    // Where it goes on behind this token, if this may stand here.
    fn after(self, token: &[u8]) -> Option<LratPlace> {
        let is_zero = is_zero(token);
        match self {
            LratPlace::Id => is_positive(token).then_some(LratPlace::Step),
            LratPlace::Step if is_d(token) => Some(LratPlace::Deleted),
            LratPlace::Step | LratPlace::Literals if is_zero => Some(LratPlace::Hints),
            LratPlace::Step | LratPlace::Literals => {
                is_number(token).then_some(LratPlace::Literals)
            }
            LratPlace::MoreHints | LratPlace::Deleted if is_zero => Some(LratPlace::End),
            LratPlace::Hints | LratPlace::MoreHints => {
                (!is_zero && is_number(token)).then_some(LratPlace::MoreHints)
            }
            LratPlace::Deleted => is_positive(token).then_some(LratPlace::Deleted),
            LratPlace::End => None,
        }
    }
}

/// Whether the line begins as a step of FRAT's text: `o` or `a`, an identifier, literals, a `0`.
pub(crate) fn is_frat_line(line: &[u8]) -> bool {
    let mut tokens = line.split(|byte| is_separator(*byte)).filter(is_token);
    if !tokens
        .next()
        .is_some_and(|tag| matches!(tag, [b'o' | b'a']))
        || !tokens.next().is_some_and(is_positive)
    {
        return false;
    }
    for token in tokens {
        if !is_number(token) {
            return false;
        }
        if is_zero(token) {
            return true;
        }
    }
    false
}

/// Whether a token is a `d`.
pub(crate) fn has_deletion(line: &[u8]) -> bool {
    line.split(|byte| is_separator(*byte)).any(is_d)
}

/// Whether the line begins as only a step of DRAT does: with a `d`, a `0`, or a negative literal.
pub(crate) fn begins_as_drat(line: &[u8]) -> bool {
    first_token(line).is_some_and(|token| is_d(token) || is_zero(token) || token.starts_with(b"-"))
}

/// Whether the first token is a number, and a separator ends it.
pub(crate) fn begins_with_number(bytes: &[u8]) -> bool {
    let mut pieces = bytes.split(|byte| is_separator(*byte));
    pieces.find(is_token).is_some_and(is_number) && pieces.next().is_some()
}

/// Whether the line begins with neither an `s` nor a `v`.
pub(crate) fn is_no_answer(line: &[u8]) -> bool {
    first_token(line).is_some_and(|token| !matches!(token, [b's' | b'v']))
}

/// Whether the first token of the line comes a second time.
pub(crate) fn repeats_first(line: &[u8]) -> bool {
    let mut tokens = line.split(|byte| is_separator(*byte)).filter(is_token);
    match tokens.next() {
        Some(first) => tokens.any(|token| token == first),
        None => false,
    }
}

fn is_d(token: &[u8]) -> bool {
    matches!(token, [b'd'])
}

fn is_zero(token: &[u8]) -> bool {
    matches!(token, [b'0'])
}

fn is_positive(token: &[u8]) -> bool {
    match token {
        [b'1'..=b'9', digits @ ..] => digits.iter().all(|byte| byte.is_ascii_digit()),
        _ => false,
    }
}

// Whether the token is a number: digits without a zero before them, and maybe a `-`, or `0`.
fn is_number(token: &[u8]) -> bool {
    match token {
        [b'0'] => true,
        [b'-', digits @ ..] => is_positive(digits),
        _ => is_positive(token),
    }
}
