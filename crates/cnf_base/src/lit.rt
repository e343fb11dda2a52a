//! Literals, as numbers: 2v for the variable v, and 2v + 1 for its complement.

ghost use Rattle.std.specs.Prelude.{◌≡◌, ℕ, ◌+◌, ◌*◌, ◌/◌, ◌<◌, ◌≤◌, ◌↔◌, nat_abs, IsSome, IfSome};
ghost use Rattle.cnf_base.specs.Literals.{literal_of, complement};
ghost use Rattle.cnf_base.specs.Words.{number_literal};

use crate::Number;
use std::marker::Model;

/// A variable of 1 to [`Lit::MAX_VAR`], or its complement.
///
/// Contracts see it as the number `2 * v` for the variable `v` and `2 * v + 1` for its complement.
#[derive(Clone, Copy, Debug, PartialEq, Eq)]
pub struct Lit {
    code: u32,
}

impl Model for Lit {
    ghost use Rattle.std.specs.Prelude.{ℕ, ◌≤◌, ◌<◌};

    ghost Value = { ℕ };

    ghost view = { λ l. l.code };

    ghost inverse = { λ n. record { code = n } };

    ghost invariant = { λ l. (2 ≤ l.code) × (l.code < 536870912) };
}

impl Default for Lit {
    ghost is_default = { λ l. l ≡ 2 };

    /// Variable 1, for places that no literal was written to.
    fn default() -> Lit {
        Lit { code: 2 }
    }
}

impl Lit {
    /// The greatest variable.
    pub const MAX_VAR: u32 = 268435455;

    /// The literal that DIMACS writes as this number; none for 0 and past the greatest variable.
    pub fn new(number: i32) -> Option<Lit>
        ensures some { IsSome result ↔
            ((1 ≤ nat_abs number) × (nat_abs number ≤ 268435455)) }
        ensures value { IfSome result (λ l. l ≡ literal_of number) }
    {
        let variable = number.unsigned_abs();
        if variable == 0 || variable > Self::MAX_VAR {
            return None;
        }
        let code = if number > 0 {
            2 * variable
        } else {
            2 * variable + 1
        };
        Some(Lit { code })
    }

    /// The literal that a number of a text names; none for 0 and past the greatest variable.
    pub fn from_number(number: Number) -> Option<Lit>
        ensures { result ≡ number_literal number }
    {
        if number.size == 0 || number.size > u64::from(Self::MAX_VAR) {
            return None;
        }
        let variable = number.size as u32;
        let code = if number.is_negative {
            2 * variable + 1
        } else {
            2 * variable
        };
        Some(Lit { code })
    }

    /// The complement.
    #[inline(always)]
    #[tactic(auto, using(crate::proofs::LiteralLemmas::xor_steps))]
    pub fn neg(self) -> Lit
        ensures { result ≡ complement self }
    {
        Lit {
            code: self.code ^ 1,
        }
    }

    /// The variable.
    pub fn var(self) -> u32
        ensures value { result ≡ self / 2 }
        ensures range { (1 ≤ result) × (result ≤ 268435455) }
    {
        self.code / 2
    }

    /// The number that DIMACS writes for it.
    pub fn to_i32(self) -> i32
        ensures { literal_of result ≡ self }
    {
        let variable = self.var() as i32;
        if self.code % 2 == 0 {
            variable
        } else {
            -variable
        }
    }

    /// `2 * v` for the variable `v`, and `2 * v + 1` for its complement.
    pub fn index(self) -> usize
        ensures value { result ≡ self }
        ensures range { (2 ≤ result) × (result < 536870912) }
    {
        self.code as usize
    }
}
