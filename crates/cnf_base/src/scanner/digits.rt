//! The digits of a number, byte by byte.

ghost use Rattle.std.specs.Prelude.{◌≡◌};
ghost use Rattle.cnf_base.specs.Code.Digits.{digits_word, with_byte};

use crate::{Number, Word};

/// What the bytes after an optional `-` are so far.
#[derive(Clone, Copy)]
pub enum Digits {
    Nothing,
    /// A single `0`.
    Zero,
    /// Digits that don't begin with a `0`, by their value up to `u64::MAX`.
    Counting(u64),
    /// No number, whatever follows.
    NoNumber,
}

impl Digits {
    /// With one more byte.
    pub fn with_byte(self, byte: u8) -> Digits
        ensures { result ≡ with_byte self byte }
    {
        if !byte.is_ascii_digit() {
            return Digits::NoNumber;
        }
        let digit = u64::from(byte - b'0');
        match self {
            Digits::Nothing if digit == 0 => Digits::Zero,
            Digits::Nothing => Digits::Counting(digit),
            Digits::Counting(size) => {
                Digits::Counting(size.saturating_mul(10).saturating_add(digit))
            }
            Digits::Zero | Digits::NoNumber => Digits::NoNumber,
        }
    }

    /// The word that they make.
    #[inline(always)]
    pub fn word(self, is_negative: bool) -> Word
        ensures { result ≡ digits_word is_negative self }
    {
        match self {
            Digits::Counting(size) => Word::Number(Number { is_negative, size }),
            Digits::Zero if !is_negative => Word::Number(Number {
                is_negative: false,
                size: 0,
            }),
            _ => Word::Other,
        }
    }
}
