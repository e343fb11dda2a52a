//! Sessions that check a DRAT proof.

ghost use Rattle.std.specs.Prelude.{◌≡◌, ℕ, [], false, IsFalse};
ghost use Rattle.std.specs.FinMap as maps;
ghost use Rattle.theory.specs.Rules.{drat};
ghost use Rattle.steps.specs.Session.{fresh};
ghost use Rattle.trail.specs.LiteralSet.{in_set};

use crate::judge::Judge;
use crate::named::Named;
use crate::session::Session;
use cnf_base::{Lit, OutOfMemory};
use drat_steps::{AdditionChecker, add_copy, delete, parts_under};
use proofs::{StepBuf, StepKind};
use propagation::Propagate;
use theory::{Accepted, DratRules, Refusal};

/// A check of a DRAT proof over any clauses that propagate.
pub type DratSession<P> = Session<Named<DratJudge<P>>>;

/// The live clauses of a DRAT proof, and its rules.
#[derive(Drop)]
pub struct DratJudge<P: Propagate> {
    checker: AdditionChecker<P>,
    rules: DratRules,
    has_lost_literal: bool,
    ghost no_slots: { checker.slots.items ≡ [] },
    ghost no_rest: { checker.last.rest.items ≡ [] },
    ghost none_looked_at: { (l : ℕ) → IsFalse (in_set checker.looked_at l) },
    ghost no_witness: { (l : ℕ) → IsFalse (in_set checker.witness l) },
}

impl<P: Propagate> Session<Named<DratJudge<P>>> {
    /// A session without clauses, under these rules.
    pub fn new(clauses: P, rules: DratRules) -> Self
        requires empty { (P.state clauses).live ≡ maps.empty }
        requires nothing_assumed { (P.state clauses).assumptions ≡ [] }
        requires none_refused { (P.state clauses).has_refused ≡ false }
        ensures { result ≡ fresh (drat rules) }
    {
        // so it is known that no literals are kept
        let _ = clauses.literals();
        let alloc = clauses.alloc();
        let checker = AdditionChecker::new(clauses);
        let judge = DratJudge {
            checker,
            rules,
            has_lost_literal: false,
        };
        Session::over(Named::new(judge, alloc))
    }
}

impl<P: Propagate> Judge for DratJudge<P> {
    ghost use Rattle.theory.specs.Rules.{drat};
    ghost use Rattle.drat_steps.specs.Ready.{IsIdle};

    // Each field has to be named here, those of the checker too. Of them the clauses alone have
    // lists of literals; what the checker has beside them is empty.
    ghost held = { λ record {
      checker = record {
        slots = _;
        last = record { alloc = _; rest = _ };
        looked_at = _;
        witness = _;
        clauses = clauses;
      };
      rules = rules;
      has_lost_literal = has_lost_literal;
      no_slots = _;
      no_rest = _;
      none_looked_at = _;
      no_witness = _;
    }. record {
      rule = drat rules;
      live = (P.state clauses).live;
      top = 0;
      stored = (P.state clauses).stored;
      has_lost_literal = has_lost_literal;
    } };

    ghost is_ready = { λ s. IsIdle (P.state s.checker.clauses) };

    fn input(&mut self, lits: &[Lit]) -> Result<(), OutOfMemory> {
        add_copy(&mut self.checker.clauses, lits)
    }

    fn step(&mut self, lits: &[Lit], step: &StepBuf) -> Result<Accepted, Refusal> {
        match step.kind() {
            StepKind::Add => {
                let (clause, witness) = parts_under(self.rules, lits);
                self.checker.add(clause, witness)
            }
            StepKind::Delete => {
                let clauses = &mut self.checker.clauses;
                let word = delete(clauses, self.rules, lits, &mut self.has_lost_literal)?;
                // Where memory is refused, all clauses stay where they are.
                let _stay = clauses.gather();
                Ok(word)
            }
        }
    }

    fn has_lost_literal(&self) -> bool {
        self.has_lost_literal
    }

    fn literals(&self) -> u64 {
        self.checker.clauses.literals()
    }
}
