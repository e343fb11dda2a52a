//! A judge that sees variables by their numbers, whatever their names.
//!
//! To a rule a name means nothing. So a clause and a step are put under numbers at the door, in the
//! order in which their variables are met, and what is inside has dense arrays.

ghost use Rattle.std.specs.Prelude.{◌≡◌, ◌≢◌, ◌⊎◌, ◌↔◌, ◌+◌, ◌<◌, ◌≤◌, [], map, IsTrue};
ghost use Rattle.std.specs.Prelude.{IfOk, OnOk, OnErr, length};
ghost use Rattle.std.specs.FinMap as maps;
ghost use Rattle.numbering.specs.Names.{number_in};
ghost use Rattle.theory.specs.Answers.{UnlessOutOfMemory};
ghost use Rattle.theory.specs.Losses.{StepLoses};
ghost use Rattle.theory.specs.Renaming.{renamed};
ghost use Rattle.theory.specs.Rules.{Same, with_input, Answers, after};
ghost use Rattle.steps.specs.Code.Naming.{answer_with, names_after, with_lits, named_state};
ghost use Rattle.steps.specs.Code.Naming.{under_names, IsNamed, IsGiven, AreAllAmong};
ghost use Rattle.steps.specs.Session.{state_of};

use crate::judge::Judge;
use cnf_base::{Lit, OutOfMemory};
use numbering::Numbering;
use proofs::{StepBuf, StepKind};
use std::alloc::Global;
use theory::{Accepted, Refusal};

/// A judge, and the numbers under which it has the variables.
#[derive(Drop)]
pub struct Named<J: Judge> {
    judge: J,
    numbering: Numbering,
    /// The literals that the judge looks at; none between calls.
    numbered: Vec<Lit>,
}

/// The answer with the pivot as the step names it.
fn with_pivot(answer: Result<Accepted, Refusal>, lits: &[Lit]) -> Result<Accepted, Refusal>
    ensures { result ≡ answer_with lits.now answer }
{
    match (answer, lits.first()) {
        (Err(Refusal::NeitherRupNorRat(_)), Some(pivot)) => {
            Err(Refusal::NeitherRupNorRat(*pivot))
        }
        (answer, _) => answer,
    }
}

/// Puts the literals of a step of this kind under numbers. Additions alone give new ones.
fn number_step(
    numbering: &mut Numbering,
    kind: StepKind,
    lits: &[Lit],
    numbered: &mut Vec<Lit>,
) -> Result<(), OutOfMemory>
    requires { numbered.old.items ≡ [] }
    ensures names { OnOk result (numbering.new ≡ names_after kind numbering.old lits.now) }
    ensures literals { OnOk result (numbered.new.items ≡
        map (renamed (number_in numbering.new)) lits.now) }
{
    match kind {
        StepKind::Add => numbering.number_all(lits, numbered),
        StepKind::Delete => numbering.find_all(lits, numbered),
    }
}

/// Hands the judge a clause of the formula under numbers.
fn input_numbered<J: Judge>(
    judge: &mut J,
    numbering: &mut Numbering,
    lits: &[Lit],
    numbered: &mut Vec<Lit>,
) -> Result<(), OutOfMemory>
    requires named { IsNamed numbering.old numbered.old.items (J.held judge.old) }
    requires ready { J.is_ready judge.old }
    requires room { (J.held judge.old).top < 4294967295 }
    ensures given { OnOk result (AreAllAmong (IsGiven numbering.new)
        (state_of (J.held judge.new))) }
    ensures ready { OnOk result (J.is_ready judge.new) }
    ensures state { OnOk result (Same (named_state numbering.new (J.held judge.new))
        (with_input (named_state numbering.old (J.held judge.old)) lits.now)) }
    ensures top { OnOk result ((J.held judge.new).top ≤ (J.held judge.old).top + 1) }
    ensures refused { OnErr result ((J.held judge.new).stored ≤ (J.held judge.old).stored) }
    ensures lost_stays { (J.held judge.new).has_lost_literal
        ≡ (J.held judge.old).has_lost_literal }
    ensures rule_stays { (J.held judge.new).rule ≡ (J.held judge.old).rule }
{
    numbering.number_all(lits, numbered)?;
    judge.input(numbered.as_slice())
}

/// Hands the judge a step under numbers.
fn step_numbered<J: Judge>(
    judge: &mut J,
    numbering: &mut Numbering,
    lits: &[Lit],
    numbered: &mut Vec<Lit>,
    step: &StepBuf,
) -> Result<Accepted, Refusal>
    requires named { IsNamed numbering.old numbered.old.items (J.held judge.old) }
    requires ready { J.is_ready judge.old }
    ensures answers { UnlessOutOfMemory result (Answers
        (named_state numbering.old (J.held judge.old)) (with_lits lits.now step.now) result) }
    ensures never_ended { result ≢ Err Refusal.Ended }
    ensures given { OnOk result (AreAllAmong (IsGiven numbering.new)
        (state_of (J.held judge.new))) }
    ensures ready { OnOk result (J.is_ready judge.new) }
    ensures state { IfOk result (λ word. Same (named_state numbering.new (J.held judge.new))
        (after (named_state numbering.old (J.held judge.old))
        (with_lits lits.now step.now) word)) }
    ensures lost { IfOk result (λ word. IsTrue (J.held judge.new).has_lost_literal ↔
        (IsTrue (J.held judge.old).has_lost_literal
        ⊎ StepLoses (named_state numbering.old (J.held judge.old))
        (with_lits lits.now step.now) word)) }
    ensures lost_stays { OnErr result ((J.held judge.new).has_lost_literal
        ≡ (J.held judge.old).has_lost_literal) }
    ensures refused { OnErr result ((J.held judge.new).stored ≤ (J.held judge.old).stored) }
    ensures rule_stays { (J.held judge.new).rule ≡ (J.held judge.old).rule }
{
    number_step(numbering, step.kind(), lits, numbered)?;
    let answer = judge.step(numbered.as_slice(), step);
    with_pivot(answer, lits)
}

impl<J: Judge> Named<J> {
    /// This judge, who holds no clause, with no variable met. It takes no memory.
    pub(crate) fn new(judge: J, alloc: Global) -> Self
        requires empty { (J.held judge).live ≡ maps.empty }
        ensures judge { result.judge ≡ judge }
        ensures named { IsNamed result.numbering result.numbered.items (J.held result.judge) }
        ensures empty { (under_names result.numbering (length result.numbered.items)
            (J.held result.judge)).live ≡ maps.empty }
    {
        Named {
            judge,
            numbering: Numbering::new(alloc),
            numbered: Vec::new(alloc),
        }
    }
}

impl<J: Judge> Judge for Named<J> {
    ghost use Rattle.std.specs.Prelude.{◌+◌, length};
    ghost use Rattle.steps.specs.Code.Naming.{under_names, IsNamed};
    ghost use Rattle.steps.specs.Session.{state_of};

    // Each field has to be named here.
    ghost held = { λ record { judge = judge; numbering = names; numbered = numbered }.
        under_names names (length numbered.items) (J.held judge) };

    ghost is_ready = { λ s. IsNamed s.numbering s.numbered.items (J.held s.judge)
        × J.is_ready s.judge };

    fn input(&mut self, lits: &[Lit]) -> Result<(), OutOfMemory> {
        let (judge, numbering) = (&mut self.judge, &mut self.numbering);
        let answer = input_numbered(judge, numbering, lits, &mut self.numbered);
        self.numbered.clear();
        answer
    }

    fn step(&mut self, lits: &[Lit], step: &StepBuf) -> Result<Accepted, Refusal> {
        let (judge, numbering) = (&mut self.judge, &mut self.numbering);
        let answer = step_numbered(judge, numbering, lits, &mut self.numbered, step);
        self.numbered.clear();
        answer
    }

    fn has_lost_literal(&self) -> bool {
        self.judge.has_lost_literal()
    }

    fn literals(&self) -> u64 {
        self.judge
            .literals()
            .saturating_add(self.numbered.len() as u64)
    }
}
