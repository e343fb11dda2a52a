//! Runs that don't stand whole in what was read at once: they are read byte by byte.

ghost use Rattle.std.specs.Prelude.{◌≡◌, ◌++◌, ◌∷◌, [], ℕ, List, true, false};
ghost use Rattle.cnf_base.specs.Words.{word_of};
ghost use Rattle.cnf_base.specs.Code.Digits.{begins_number, first_digits, Spells, IsKept};

use super::digits::Digits;
use super::name::Name;
use crate::Word;

/// What is kept of a run so far.
pub trait Run {
    /// One of its kind may begin with the byte.
    ghost begins: { ℕ → Type 0 };

    /// These are its bytes so far.
    ghost is_of: { Self → List ℕ → Type 0 };

    /// Forgets what was kept, and begins with this byte.
    fn begin(&mut self, first: u8)
        requires { begins first }
        ensures { is_of self.new (first ∷ []) };

    /// Takes one more byte of the run.
    fn add(&mut self, byte: u8)
        ensures { (run : List ℕ) → is_of self.old run → is_of self.new (run ++ byte ∷ []) };

    /// The word that the run makes.
    fn says(&self) -> Word
        ensures { (run : List ℕ) → is_of self.now run → result ≡ word_of run };
}

/// A run that begins with a digit or a `-`.
#[derive(Drop)]
pub struct Numeral {
    is_negative: bool,
    digits: Digits,
}

impl Numeral {
    /// Nothing so far.
    pub fn new() -> Numeral {
        Numeral {
            is_negative: false,
            digits: Digits::Nothing,
        }
    }
}

impl Run for Numeral {
    ghost begins = { λ b. begins_number b ≡ true };

    ghost is_of = { λ n run. Spells n.is_negative n.digits run };

    #[tactic(auto, using(crate::proofs::WholeLemmas::spelled))]
    fn begin(&mut self, first: u8) {
        self.is_negative = first == b'-';
        self.digits = first_digits(first);
    }

    #[tactic(auto, using(crate::proofs::WholeLemmas::spelled))]
    fn add(&mut self, byte: u8) {
        self.digits = self.digits.with_byte(byte);
    }

    #[tactic(auto, using(crate::proofs::WholeLemmas::spelled))]
    fn says(&self) -> Word {
        self.digits.word(self.is_negative)
    }
}

// The digits that a number's first byte is.
fn first_digits(byte: u8) -> Digits
    ensures { result ≡ first_digits byte }
{
    if byte == b'-' {
        Digits::Nothing
    } else {
        Digits::Nothing.with_byte(byte)
    }
}

// A run that begins with another byte.
impl Run for Name {
    ghost begins = { λ b. begins_number b ≡ false };

    ghost is_of = { λ n run. IsKept n.bytes n.len n.is_longer run };

    fn begin(&mut self, first: u8) {
        *self = Name::new();
        self.push(first);
    }

    fn add(&mut self, byte: u8) {
        self.push(byte);
    }

    fn says(&self) -> Word {
        self.word()
    }
}
