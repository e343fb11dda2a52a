//! What the header of a formula says.

use crate::first_bytes::LIMIT;

/// What the header of a formula says.
#[derive(Clone, Copy, Debug, PartialEq, Eq)]
pub struct Header {
    /// The number of variables.
    pub variables: u64,
    /// The number of clauses.
    pub clauses: u64,
}

/// What the header says, where these first bytes, from the first line that is neither blank nor a
/// comment, have it whole.
pub fn header_in(first: &[u8]) -> Option<Header> {
    let line = first.split(|byte| *byte == b'\n').next()?;
    if line.len() == LIMIT {
        return None;
    }
    let mut words = str::from_utf8(line).ok()?.split_ascii_whitespace();
    if words.next() != Some("p") || words.next() != Some("cnf") {
        return None;
    }
    Some(Header {
        variables: words.next()?.parse().ok()?,
        clauses: words.next()?.parse().ok()?,
    })
}
