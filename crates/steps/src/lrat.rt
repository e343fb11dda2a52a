//! Sessions that check an LRAT proof.

mod addition;
mod candidates;
mod deletions;
mod walk;

ghost use Rattle.std.specs.Prelude.{◌≡◌, ◌≢◌, ◌≤◌, [], IfOk, OnOk, OnErr};
ghost use Rattle.std.specs.FinMap as maps;
ghost use Rattle.cnf_base.specs.Literals.{complements};
ghost use Rattle.theory.specs.Lrat.{chain, units_of, groups_of, AnswersChain, AnswersLrat};
ghost use Rattle.theory.specs.Lrat.{after_lrat, lrat_step, SameClauses};
ghost use Rattle.trail.specs.Trail.{HasRoom};
ghost use Rattle.live_clauses.specs.LiveClauses.{lrat_state};
ghost use Rattle.theory.specs.Rules.{lrat};
ghost use Rattle.steps.specs.Session.{fresh};
ghost use Rattle.steps.specs.Code.Naming.{with_lits};
ghost use Rattle.steps.specs.Code.Ready.{IsReady};
ghost use Rattle.theory.specs.Answers.{UnlessOutOfMemory};

use crate::judge::Judge;
use crate::lrat::addition::judge_addition;
use crate::lrat::candidates::HintsRoom;
use crate::lrat::deletions::delete_all;
use crate::named::Named;
use crate::session::Session;
use cnf_base::{Lit, OutOfMemory};
use live_clauses::LiveClauses;
use proofs::{StepBuf, StepKind};
use std::alloc::Global;
use theory::{Accepted, Refusal};
use trail::Trail;

/// A check of an LRAT proof.
pub type LratSession = Session<Named<LratJudge>>;

/// The live clauses of an LRAT proof, each at its identifier.
#[derive(Drop)]
pub struct LratJudge {
    room: HintsRoom,
    held: LiveClauses,
    // with room for the variables of all live clauses
    trues: Trail,
    ghost none_true: { trues.lits ≡ [] },
}

/// Judges an addition whose identifier is right. The walk over its hints takes no memory.
fn judge(
    room: &mut HintsRoom,
    held: &mut LiveClauses,
    trues: &mut Trail,
    lits: &[Lit],
    hints: &[i64],
) -> Result<Accepted, Refusal>
    requires ready { IsReady (maps.get held.old.live) trues.old }
    ensures answer { UnlessOutOfMemory result (AnswersChain (maps.get held.old.live) lits.now
        (groups_of hints.now) (chain (maps.get held.old.live) (complements lits.now)
        (units_of hints.now)) result) }
    ensures ready { IsReady (maps.get held.old.live) trues.new }
    ensures room { OnOk result (HasRoom trues.new.reserved lits.now) }
    ensures same { held.new ≡ held.old }
{
    trues.reserve_all(lits)?;
    let answer = judge_addition(room, held, trues, lits, hints);
    trues.undo_to(0);
    answer
}

/// Judges an addition, and adds the clause where it is accepted.
#[tactic(auto, using(crate::proofs::LratLemmas::addition_steps))]
fn take_addition(
    room: &mut HintsRoom,
    held: &mut LiveClauses,
    trues: &mut Trail,
    lits: &[Lit],
    step: &StepBuf,
) -> Result<Accepted, Refusal>
    requires addition { step.now.kind ≡ StepKind.Add }
    requires ready { IsReady (maps.get held.old.live) trues.old }
    ensures answers { UnlessOutOfMemory result
        (AnswersLrat (lrat_state held.old) (lrat_step (with_lits lits.now step.now)) result) }
    ensures live { OnOk result (SameClauses (maps.get held.new.live)
        (after_lrat (lrat_state held.old) (lrat_step (with_lits lits.now step.now))).live) }
    ensures top { OnOk result (held.new.top ≡ (after_lrat (lrat_state held.old)
        (lrat_step (with_lits lits.now step.now))).top) }
    ensures ready { OnOk result (IsReady (maps.get held.new.live) trues.new) }
    ensures none_true { trues.new.lits ≡ [] }
    ensures refused { OnErr result (held.new.stored ≤ held.old.stored) }
    ensures never_ended { result ≢ Err Refusal.Ended }
{
    let id = step.id();
    if id <= held.top() {
        return Err(Refusal::IdOutOfOrder);
    }
    let word = judge(room, held, trues, lits, step.hints())?;
    held.add(id, lits)?;
    Ok(word)
}

impl Session<Named<LratJudge>> {
    /// A session without clauses.
    #[tactic(auto, using(crate::proofs::LratLemmas::ready_empty))]
    pub fn new(alloc: Global) -> Result<Self, OutOfMemory>
        ensures { IfOk result (λ session. session ≡ fresh lrat) }
    {
        let held = LiveClauses::new(alloc)?;
        let trues = Trail::new(alloc)?;
        let room = HintsRoom::new(alloc);
        let judge = LratJudge { room, held, trues };
        Ok(Session::over(Named::new(judge, alloc)))
    }
}

impl Judge for LratJudge {
    ghost use Rattle.std.specs.FinMap as maps;
    ghost use Rattle.std.specs.Prelude.{false};
    ghost use Rattle.theory.specs.Rules.{lrat};
    ghost use Rattle.steps.specs.Code.Ready.{IsReady};

    // Each field has to be named here, those of the room too. Of them the clauses alone have lists
    // of literals: the room has identifiers, and the trail is empty.
    ghost held = { λ record {
      room = record { alloc = _; ids = _ };
      held = held;
      trues = _;
      none_true = _;
    }. record {
      rule = lrat;
      live = held.live;
      top = held.top;
      stored = held.stored;
      has_lost_literal = false;
    } };

    ghost is_ready = { λ s. IsReady (maps.get s.held.live) s.trues };

    #[tactic(auto, using(crate::proofs::LratLemmas::ready_with))]
    fn input(&mut self, lits: &[Lit]) -> Result<(), OutOfMemory> {
        self.trues.reserve_all(lits)?;
        let id = self.held.top() + 1;
        self.held.add(id, lits)
    }

    fn step(&mut self, lits: &[Lit], step: &StepBuf) -> Result<Accepted, Refusal> {
        let (room, held, trues) = (&mut self.room, &mut self.held, &mut self.trues);
        match step.kind() {
            StepKind::Add => take_addition(room, held, trues, lits, step),
            StepKind::Delete => match delete_all(held, step.hints()) {
                Some(id) => Err(Refusal::UnknownId(id)),
                None => Ok(Accepted::Deleted),
            },
        }
    }

    fn has_lost_literal(&self) -> bool {
        false
    }

    fn literals(&self) -> u64 {
        self.held.literals()
    }
}
