//! The bytes of a fixed word.

ghost use Rattle.std.specs.Prelude.{◌≡◌, ◌≤◌, ◌∷◌, ◌++◌, [], ℕ, List, cond, length, take};
ghost use Rattle.std.specs.Str.{bytes_eq};
ghost use Rattle.cnf_base.specs.Words.{fixed_word};
ghost use Rattle.cnf_base.specs.Code.Digits.{AreKept};

use crate::Word;

const ROOM: usize = 16;

/// The first bytes of a run, no more than 16.
#[derive(Clone, Copy)]
pub struct Name {
    bytes: [u8; ROOM],
    len: usize,
    is_longer: bool,
    ghost most: { length bytes ≤ 16 },
}

impl Name {
    pub fn new() -> Name
        ensures { AreKept result.bytes result.len result.is_longer [] }
    {
        Name {
            bytes: [0; ROOM],
            len: 0,
            is_longer: false,
        }
    }

    /// Takes one more byte of the run.
    pub fn push(&mut self, byte: u8)
        ensures { (run : List ℕ) →
            AreKept self.old.bytes self.old.len self.old.is_longer run →
            AreKept self.new.bytes self.new.len self.new.is_longer (run ++ byte ∷ []) }
    {
        if self.len < ROOM {
            self.bytes[self.len] = byte;
            self.len += 1;
        } else {
            self.is_longer = true;
        }
    }

    /// The word that the run makes.
    pub fn word(&self) -> Word
        ensures { (run : List ℕ) →
            AreKept self.now.bytes self.now.len self.now.is_longer run →
            result ≡ fixed_word run }
    {
        if self.is_longer || self.len > ROOM {
            return Word::Other;
        }
        fixed_word(&self.bytes[..self.len])
    }
}

fn fixed_word(run: &[u8]) -> Word
    ensures { result ≡ fixed_word run.now }
{
    if is_same(run, b"p") {
        Word::P
    } else if is_same(run, b"cnf") {
        Word::Cnf
    } else if is_same(run, b"d") {
        Word::D
    } else if is_same(run, b"s") {
        Word::S
    } else if is_same(run, b"v") {
        Word::V
    } else if is_same(run, b"SATISFIABLE") {
        Word::Satisfiable
    } else if is_same(run, b"UNSATISFIABLE") {
        Word::Unsatisfiable
    } else if is_same(run, b"UNKNOWN") {
        Word::Unknown
    } else {
        Word::Other
    }
}

fn is_same(run: &[u8], word: &[u8]) -> bool
    ensures { result ≡ bytes_eq run.now word.now }
{
    run == word
}
