//! The trait `ProofSession`: what every session does that checks a proof.
//!
//! It alone has the contract of a session: so the engine is written once for all of them, and
//! callers of one read the contract with its case of `Rule` and `State`.

pub(crate) mod progress;

ghost use Rattle.std.specs.Prelude.{◌≡◌, ◌⊎◌, ◌+◌, ◌-◌, ◌^◌, ◌<◌, ◌≤◌, ◌||◌, ◌↔◌, min, max, length};
ghost use Rattle.std.specs.Prelude.{true, false, IsTrue, IsFalse, IfOk, IfErr, OnOk, OnErr};
ghost use Rattle.steps.specs.ProofSession.{View, is_over, IsCutOff};
ghost use Rattle.theory.specs.Rules.{Same, with_input, Answers, after, literals_of, sum_of};
ghost use Rattle.theory.specs.Rules.{rule_of, IsSatisfiable};
ghost use Rattle.theory.specs.Answers.{UnlessOutOfMemory};
ghost use Rattle.theory.specs.Verdicts.{is_empty, is_last};
ghost use Rattle.theory.specs.Losses.{StepLoses};

use cnf_base::Lit;
use proofs::StepBuf;
use theory::{Accepted, Refusal};

/// A check of a proof: the clauses of the formula are input first, and then the steps are taken in
/// order.
pub trait ProofSession {
    /// The live clauses under the rule of the session, and how far it has come.
    ghost shown: { Self → View };

    /// Adds a clause of the formula. After a refusal the session is ended.
    fn input(&mut self, lits: &[Lit]) -> Result<(), Refusal>
        // Clauses come before the first step, and only so many of them.
        requires { ((shown self.old).is_ended ≡ true) ⊎
            (((shown self.old).has_stepped ≡ false) × (0 < (shown self.old).room)) }
        // Only memory and an ended session refuse a clause.
        ensures ended { (result ≡ Err Refusal.Ended) ↔ ((shown self.old).is_ended ≡ true) }
        ensures refusals { IfErr result (λ refusal. (refusal ≡ Refusal.Ended) ⊎
            (refusal ≡ Refusal.OutOfMemory)) }
        // The clause is alive beside the others.
        ensures state { OnOk result (Same (shown self.new).state
            (with_input (shown self.old).state lits.now)) }
        ensures verified { OnOk result ((shown self.new).is_verified ≡
            ((shown self.old).is_verified || is_empty lits.now)) }
        ensures peak { OnOk result ((shown self.new).peak ≡ max (shown self.old).peak
            (sum_of (shown self.new).state)) }
        // What it keeps is the live clauses, and after a refusal no more than before it and the
        // clause.
        ensures held { OnOk result ((shown self.new).stored ≡
            literals_of (shown self.new).state) }
        ensures held_at_most { OnErr result ((shown self.new).stored ≤
            (shown self.old).stored + length lits.now) }
        ensures held_stays { result ≡ Err Refusal.Ended →
            (shown self.new).stored ≡ (shown self.old).stored }
        // Steps and further clauses may follow.
        ensures room { OnOk result ((shown self.old).room ≤ (shown self.new).room + 1) }
        ensures steps { OnOk result ((shown self.new).has_stepped ≡ false) }
        ensures goes_on { OnOk result ((shown self.new).is_ended ≡ false) }
        ensures lost_stays { OnOk result
            ((shown self.new).has_lost_literal ≡ (shown self.old).has_lost_literal) }
        ensures refused { OnErr result (IsCutOff (shown self.old) (shown self.new)) }
        ensures rule_stays { rule_of (shown self.new).state ≡ rule_of (shown self.old).state };

    /// Judges a step and, where it is accepted, takes it. After a refusal, and after the accepted
    /// empty clause, the session is ended.
    fn step(&mut self, step: &StepBuf) -> Result<Accepted, Refusal>
        // No step is taken once the session is ended, or once an empty clause was input.
        ensures ended { (result ≡ Err Refusal.Ended) ↔ IsTrue (is_over (shown self.old)) }
        // Else the answer is that of the rule, with its cause.
        ensures answers { IsFalse (is_over (shown self.old)) →
            UnlessOutOfMemory result (Answers (shown self.old).state step.now result) }
        // An accepted step leaves what the rule leaves.
        ensures state { IfOk result (λ word. Same (shown self.new).state
            (after (shown self.old).state step.now word)) }
        ensures steps { OnOk result ((shown self.new).has_stepped ≡ true) }
        ensures verified { IfOk result (λ word.
            (shown self.new).is_verified ≡ ((shown self.old).is_verified || is_last word)) }
        ensures ends { IfOk result (λ word. (shown self.new).is_ended ≡ is_last word) }
        ensures peak { OnOk result ((shown self.new).peak ≡ max (shown self.old).peak
            (sum_of (shown self.new).state)) }
        // What it keeps is the live clauses, and after a refusal no more than before it and the
        // step.
        ensures held { OnOk result ((shown self.new).stored ≡
            literals_of (shown self.new).state) }
        ensures held_at_most { OnErr result ((shown self.new).stored ≤
            (shown self.old).stored + length step.now.lits) }
        ensures held_stays { result ≡ Err Refusal.Ended →
            (shown self.new).stored ≡ (shown self.old).stored }
        // It takes note of a root-level literal that the step loses.
        ensures lost { IfOk result (λ word. IsTrue (shown self.new).has_lost_literal ↔
            (IsTrue (shown self.old).has_lost_literal
            ⊎ StepLoses (shown self.old).state step.now word)) }
        // It keeps satisfiability.
        ensures keeps_models { OnOk result (IsSatisfiable (shown self.old).state →
            IsSatisfiable (shown self.new).state) }
        ensures refused { OnErr result (IsCutOff (shown self.old) (shown self.new)) }
        ensures rule_stays { rule_of (shown self.new).state ≡ rule_of (shown self.old).state };

    /// Whether an empty clause was input or accepted.
    fn verified(&self) -> bool
        ensures { result ≡ (shown self.now).is_verified };

    /// Whether an accepted deletion lost a root-level literal.
    fn has_lost_literal(&self) -> bool
        ensures { result ≡ (shown self.now).has_lost_literal };

    /// How many literals it keeps: the sum of the lengths of all lists of literals of clauses or of
    /// steps in it; `2^64 - 1` where it is greater. After an accepted call that is the sum of the
    /// sizes of the live clauses. It takes no memory.
    fn held(&self) -> u64
        ensures { result ≡ min (shown self.now).stored (2 ^ 64 - 1) };

    /// The greatest sum of the sizes of the live clauses, after each clause that was input and each
    /// accepted step. It saturates.
    fn peak(&self) -> u64
        ensures { result ≡ (shown self.now).peak };
}
