//! The lines of an input's first bytes: those that are whole, and neither blank nor a comment.

use crate::tokens::{
    begins_as_drat, has_deletion, is_blank, is_drat_line, is_lrat_line, is_no_answer, repeats_first,
};

/// The first line.
pub(crate) fn first_line(first: &[u8]) -> Option<&[u8]> {
    first.split_inclusive(ends_line).find(is_line)
}

/// Whether there are lines, and each is a step of LRAT.
pub(crate) fn is_lrat_text(first: &[u8]) -> bool {
    let mut lines = first.split_inclusive(ends_line).filter(is_line);
    lines.next().is_some_and(is_lrat_line) && lines.all(is_lrat_line)
}

/// Whether there are lines, and each is a step of DRAT.
pub(crate) fn is_drat_text(first: &[u8]) -> bool {
    let mut lines = first.split_inclusive(ends_line).filter(is_line);
    lines.next().is_some_and(is_drat_line) && lines.all(is_drat_line)
}

/// Whether a line begins as a solver's answer, and another one as nothing in an output does.
pub(crate) fn has_answer_among_others(first: &[u8]) -> bool {
    some_line(first, is_answer) && some_line(first, is_no_answer)
}

/// Whether the bytes begin as a solver's answer: with a status line, or a line of a model.
pub(crate) fn is_answer(bytes: &[u8]) -> bool {
    match bytes {
        [b'v', b' ', next, ..] => *next == b'-' || next.is_ascii_digit(),
        _ => {
            bytes.starts_with(b"s SATISFIABLE")
                || bytes.starts_with(b"s UNSATISFIABLE")
                || bytes.starts_with(b"s UNKNOWN")
        }
    }
}

/// Whether a line has the token `d`.
pub(crate) fn some_deletes(first: &[u8]) -> bool {
    some_line(first, has_deletion)
}

/// Whether a line begins as a step of DRAT does and none of LRAT.
pub(crate) fn some_begins_as_drat(first: &[u8]) -> bool {
    some_line(first, begins_as_drat)
}

/// Whether a line without the token `d` has its first token a second time.
pub(crate) fn some_repeats(first: &[u8]) -> bool {
    some_line(first, |line| !has_deletion(line) && repeats_first(line))
}

/// Whether the first line ends with a carriage return and a line feed.
pub(crate) fn has_carriage_return(first: &[u8]) -> bool {
    first_line(first).is_some_and(|line| line.ends_with(b"\r\n"))
}

/// Whether the bytes end as the files of SATLIB do: with a line that has a `%` alone, and a line
/// that has a `0` alone, and separators around each.
pub(crate) fn is_satlib_end(tail: &[u8]) -> bool {
    let Some(before) = tail.trim_ascii_end().strip_suffix(b"0") else {
        return false;
    };
    let percent = before.trim_ascii_end();
    let between = before.get(percent.len()..);
    percent.ends_with(b"\n%") && between.is_some_and(|bytes| bytes.contains(&b'\n'))
}

fn some_line<F: FnMut(&[u8]) -> bool>(first: &[u8], test: F) -> bool
    requires { F.IsAlwaysCallable test }
{
    first.split_inclusive(ends_line).filter(is_line).any(test)
}

fn ends_line(byte: &u8) -> bool {
    *byte == b'\n'
}

fn is_line(piece: &&[u8]) -> bool {
    piece.ends_with(b"\n") && !is_blank(piece) && !piece.starts_with(b"c")
}
