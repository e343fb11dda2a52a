//! A session, under either rule.

ghost use Rattle.std.specs.Prelude.{◌≡◌, [], false};
ghost use Rattle.std.specs.FinMap as maps;
ghost use Rattle.steps.specs.Session.{view_of, fresh};

use crate::judge::Judge;
use crate::proof_session::ProofSession;
use crate::proof_session::progress::Progress;
use cnf_base::Lit;
use proofs::StepBuf;
use std::marker::Model;
use theory::{Accepted, Refusal};

/// A check of a proof: the clauses of the formula are input first, and then the steps are taken in
/// order.
#[derive(Drop)]
pub struct Session<J: Judge> {
    judge: J,
    progress: Progress,
}

impl<J: Judge> Model for Session<J> {
    ghost use Rattle.steps.specs.Session.{SessionState};
    ghost use Rattle.steps.specs.Code.Session.{session_code};
    ghost use Rattle.std.specs.Prelude.{◌≡◌, false};

    ghost Value = { SessionState };

    ghost coded = { session_code };

    // Each field has to be named here, those of the progress too. Of them the judge alone has lists
    // of literals.
    ghost view = { λ record {
      judge = judge;
      progress = record {
        has_stepped = has_stepped;
        is_verified = is_verified;
        is_ended = is_ended;
        peak = peak;
      };
    }. record {
      held = J.held judge;
      has_stepped = has_stepped;
      is_verified = is_verified;
      is_ended = is_ended;
      peak = peak;
    } };

    ghost invariant = { λ s. s.progress.is_ended ≡ false → J.is_ready s.judge };
}

impl<J: Judge> Session<J> {
    /// A session under the rule of this judge, who holds no clause.
    pub(crate) fn over(judge: J) -> Self
        requires ready { J.is_ready judge }
        requires empty { (J.held judge).live ≡ maps.empty }
        requires none_before { (J.held judge).top ≡ 0 }
        requires none_lost { (J.held judge).has_lost_literal ≡ false }
        ensures { result ≡ fresh (J.held judge).rule }
    {
        let progress = Progress::new(judge.literals());
        Session { judge, progress }
    }
}

impl<J: Judge> ProofSession for Session<J> {
    ghost shown = { view_of };

    fn input(&mut self, lits: &[Lit]) -> Result<(), Refusal> {
        if self.progress.is_ended {
            return Err(Refusal::Ended);
        }
        if self.judge.input(lits).is_err() {
            self.progress.end();
            return Err(Refusal::OutOfMemory);
        }
        self.progress.input(lits.is_empty(), self.judge.literals());
        Ok(())
    }

    fn step(&mut self, step: &StepBuf) -> Result<Accepted, Refusal> {
        if self.progress.is_over() {
            self.progress.end();
            return Err(Refusal::Ended);
        }
        let answer = self.judge.step(step.lits(), step);
        match answer {
            Ok(word) => self.progress.step(word, self.judge.literals()),
            Err(_) => self.progress.end(),
        }
        answer
    }

    fn verified(&self) -> bool {
        self.progress.is_verified
    }

    fn has_lost_literal(&self) -> bool {
        self.judge.has_lost_literal()
    }

    fn held(&self) -> u64 {
        self.judge.literals()
    }

    fn peak(&self) -> u64 {
        self.progress.peak
    }
}
