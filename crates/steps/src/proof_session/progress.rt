//! How far a session has come: whether it is over or has verified the formula, and its peak.
//! The peak saturates at 2^64 - 1: a maximum of saturated sums is the saturated maximum.

ghost use Rattle.std.specs.Prelude.{◌≡◌, ◌||◌, max, true, false};
ghost use Rattle.theory.specs.Verdicts.{is_last};

use theory::Accepted;

/// What both sessions keep of it, and how a clause, a step and a refusal change it.
#[derive(Drop)]
pub(crate) struct Progress {
    pub(crate) has_stepped: bool,
    pub(crate) is_verified: bool,
    pub(crate) is_ended: bool,
    // the greatest sum of the sizes of the live clauses, which saturates
    pub(crate) peak: u64,
}

impl Progress {
    /// Nothing was done yet, and so many literals are alive.
    pub(crate) fn new(literals: u64) -> Self
        ensures { result ≡ record {
          has_stepped = false;
          is_verified = false;
          is_ended = false;
          peak = literals;
        } }
    {
        Progress {
            has_stepped: false,
            is_verified: false,
            is_ended: false,
            peak: literals,
        }
    }

    /// Whether no further step is taken.
    pub(crate) fn is_over(&self) -> bool
        ensures { result ≡ (self.now.is_ended || self.now.is_verified) }
    {
        self.is_ended || self.is_verified
    }

    /// A clause was input, which left clauses of this size in sum.
    pub(crate) fn input(&mut self, is_empty: bool, literals: u64)
        ensures { self.new ≡ record self.old {
          is_verified = self.old.is_verified || is_empty;
          peak = max self.old.peak literals;
        } }
    {
        self.is_verified = self.is_verified || is_empty;
        self.peak = self.peak.max(literals);
    }

    /// A step was accepted with this word, and left clauses of this size in sum.
    pub(crate) fn step(&mut self, word: Accepted, literals: u64)
        ensures { self.new ≡ record {
          has_stepped = true;
          is_verified = is_last word;
          is_ended = is_last word;
          peak = max self.old.peak literals;
        } }
    {
        let is_last = matches!(word, Accepted::Empty);
        self.has_stepped = true;
        self.is_verified = is_last;
        self.is_ended = is_last;
        self.peak = self.peak.max(literals);
    }

    /// A clause or a step was refused.
    pub(crate) fn end(&mut self)
        ensures { self.new ≡ record self.old { is_ended = true } }
    {
        self.is_ended = true;
    }
}
