//! A proof in LRAT that adds a clause and deletes it, again and again, and a session that checks
//! it.

use crate::count_calls;
use cnf_base::{Fault, FromRead, Lit, OutOfMemory, Source};
use proofs::{LratText, StepBuf, StepReader};
use std::alloc::Global;
use std::io::{self, Read};
use steps::{Accepted, LratSession, ProofSession, Refusal};

const TEXT: [u8; 36] = *b"100000 1 -2 0 1 0\n100000 d 100000 0\n";

/// The two steps of a pair. From pair to pair the identifier rises.
#[derive(Drop)]
struct Pairs {
    text: [u8; 36],
    given: usize,
    // How many of its digits there are up to the one that rises by one.
    digits: usize,
}

impl Pairs {
    /// A hundred thousand pairs come as far by ones as a thousand by hundreds.
    fn new(times: u64) -> Self {
        Pairs {
            text: TEXT,
            given: 0,
            digits: if times > 1000 { 6 } else { 4 },
        }
    }
}

/// Adds one to the digit, and to those before it where it was a nine.
fn rise(digits: &mut [u8]) {
    for digit in digits.iter_mut().rev() {
        if *digit < b'9' {
            *digit += 1;
            return;
        }
        *digit = b'0';
    }
}

impl Read for Pairs {
    fn read(&mut self, buf: &mut [u8]) -> io::Result<usize> {
        if self.given >= self.text.len() {
            for at in [0, 18, 27] {
                if let Some(digits) = self.text.get_mut(at..self.digits.saturating_add(at)) {
                    rise(digits);
                }
            }
            self.given = 0;
        }
        let mut rest = match self.text.get(self.given..) {
            Some(rest) => rest,
            None => &[],
        };
        let n = rest.read(buf)?;
        self.given = self.given.saturating_add(n);
        Ok(n)
    }
}

/// How many of so many pairs are accepted, of a formula with this clause of two literals.
pub fn check_pairs(alloc: Global, clause: &[Lit], times: u64) -> Result<u64, Fault> {
    let mut session = LratSession::new(alloc)?;
    if session.input(clause).is_err() {
        return Err(Fault::OutOfMemory);
    }
    let source = match Source::new(alloc, FromRead::new(Pairs::new(times))) {
        Ok(source) => source,
        Err((OutOfMemory, _)) => return Err(Fault::OutOfMemory),
    };
    let mut reader = LratText::new(source);
    let mut step = StepBuf::new(alloc);
    count_calls(times, |_| {
        Ok(
            read_and_step(&mut session, &mut reader, &mut step)? == Some(Accepted::Rup)
                && read_and_step(&mut session, &mut reader, &mut step)? == Some(Accepted::Deleted),
        )
    })
}

/// What the session says of the next step; none where it is refused or there is none.
pub fn read_and_step<S: ProofSession, R: StepReader>(
    session: &mut S,
    reader: &mut R,
    step: &mut StepBuf,
) -> Result<Option<Accepted>, Fault> {
    if !reader.next(step)? {
        return Ok(None);
    }
    match session.step(step) {
        Ok(accepted) => Ok(Some(accepted)),
        Err(Refusal::OutOfMemory) => Err(Fault::OutOfMemory),
        Err(_) => Ok(None),
    }
}
