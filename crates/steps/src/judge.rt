//! What a session has of its rule.

ghost use Rattle.std.specs.Prelude.{◌≡◌, ◌≢◌, ◌⊎◌, ◌↔◌, ◌+◌, ◌-◌, ◌^◌, ◌<◌, ◌≤◌, min, IsTrue};
ghost use Rattle.std.specs.Prelude.{IfOk, OnOk, OnErr};
ghost use Rattle.steps.specs.Code.Naming.{with_lits};
ghost use Rattle.steps.specs.Session.{Held, state_of};
ghost use Rattle.theory.specs.Rules.{Same, with_input, Answers, after, literals_of};
ghost use Rattle.theory.specs.Rules.{IsSatisfiable};
ghost use Rattle.theory.specs.Answers.{UnlessOutOfMemory};
ghost use Rattle.theory.specs.Losses.{StepLoses};

use cnf_base::{Lit, OutOfMemory};
use proofs::StepBuf;
use theory::{Accepted, Refusal};

/// The live clauses of a session, and the rule by which steps on them are judged.
pub trait Judge {
    /// What it holds.
    ghost held: { Self → Held };

    /// What a call needs of it, and leaves unless it refuses.
    ghost is_ready: { Self → Type 0 };

    /// Adds a clause of the formula.
    fn input(&mut self, lits: &[Lit]) -> Result<(), OutOfMemory>
        requires ready { is_ready self.old }
        requires room { (held self.old).top < 4294967295 }
        ensures ready { OnOk result (is_ready self.new) }
        ensures state { OnOk result (Same (state_of (held self.new))
            (with_input (state_of (held self.old)) lits.now)) }
        ensures top { OnOk result ((held self.new).top ≤ (held self.old).top + 1) }
        ensures refused { OnErr result ((held self.new).stored ≤ (held self.old).stored) }
        ensures lost_stays { (held self.new).has_lost_literal
            ≡ (held self.old).has_lost_literal }
        ensures rule_stays { (held self.new).rule ≡ (held self.old).rule };

    /// Judges the step with these literals and, where it is accepted, takes it.
    fn step(&mut self, lits: &[Lit], step: &StepBuf) -> Result<Accepted, Refusal>
        requires { is_ready self.old }
        ensures answers { UnlessOutOfMemory result
            (Answers (state_of (held self.old)) (with_lits lits.now step.now) result) }
        ensures never_ended { result ≢ Err Refusal.Ended }
        ensures ready { OnOk result (is_ready self.new) }
        ensures state { IfOk result (λ word. Same (state_of (held self.new))
            (after (state_of (held self.old)) (with_lits lits.now step.now) word)) }
        ensures keeps_models { OnOk result (IsSatisfiable (state_of (held self.old)) →
            IsSatisfiable (state_of (held self.new))) }
        ensures refused { OnErr result ((held self.new).stored ≤ (held self.old).stored) }
        ensures lost { IfOk result (λ word. IsTrue (held self.new).has_lost_literal ↔
            (IsTrue (held self.old).has_lost_literal
            ⊎ StepLoses (state_of (held self.old)) (with_lits lits.now step.now) word)) }
        ensures lost_stays { OnErr result
            ((held self.new).has_lost_literal ≡ (held self.old).has_lost_literal) }
        ensures rule_stays { (held self.new).rule ≡ (held self.old).rule };

    /// Whether an accepted deletion lost a root-level literal.
    fn has_lost_literal(&self) -> bool
        ensures { result ≡ (held self.now).has_lost_literal };

    /// The sum of the lengths of all lists of literals that it keeps. It saturates.
    fn literals(&self) -> u64
        ensures value { result ≡ min (held self.now).stored (2 ^ 64 - 1) }
        ensures live_alone { is_ready self.now →
            (held self.now).stored ≡ literals_of (state_of (held self.now)) };
}
