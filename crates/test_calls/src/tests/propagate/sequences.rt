//! Made-up sequences of insertions, removals, assumptions and undos: both propagations answer
//! alike.

ghost use Rattle.std.specs.Prelude.{◌≡◌, ◌<◌, ℕ, List, [], ◌∷◌, IfOk, OnOk};
ghost use Rattle.propagation.specs.Assumptions.{LastIsAnswered};
ghost use Rattle.propagation.specs.declared.answer.Answer.TheVariants.{Quiet};

use crate::tests::propagate::calls::fill;
use crate::tests::propagate::fresh::{Fresh, Watching};
use cnf_base::Lit;
use propagation::{Answer, Propagate, Scan, Value};
use std::alloc::Global;
use std::test::Fail;
use test_inputs::{expect_equal, expect_true, literals};
use watch::Watch;

/// Numbers that look as if thrown.
#[derive(Clone, Copy)]
struct Dice {
    state: u64,
}

impl Dice {
    /// The next number.
    fn roll(&mut self) -> u32 {
        self.state = self
            .state
            .wrapping_mul(6364136223846793005)
            .wrapping_add(1442695040888963407);
        (self.state / 4294967296) as u32
    }

    /// A literal of one of the variables 1 to 7.
    fn literal(&mut self) -> Option<Lit> {
        let var = (self.roll() % 7) as i32 + 1;
        if self.roll() % 2 == 0 {
            Lit::new(var)
        } else {
            Lit::new(0 - var)
        }
    }

    /// As many literals.
    fn literals(&mut self, alloc: Global, count: u32) -> Result<Vec<Lit>, Fail> {
        let mut all = Vec::new(alloc);
        for _ in 0..count {
            all.push(self.literal().ok_or("no literal")?)?;
        }
        Ok(all)
    }

    /// At least one, and at most so many.
    fn literals_up_to(&mut self, alloc: Global, most: u32) -> Result<Vec<Lit>, Fail>
        requires { 0 < most }
    {
        let count = (self.roll() % most).saturating_add(1);
        self.literals(alloc, count)
    }
}

/// Notes which literals are true: 2 and 3 for the signs of a variable, 4 where it is open.
fn note_values<P: Propagate>(clauses: &P, log: &mut Vec<u8>) -> Result<(), Fail>
    requires { LastIsAnswered Quiet (P.state clauses.now).assumptions }
{
    for var in 1..8 {
        let l = Lit::new(var).ok_or("no literal")?;
        let noted = match clauses.value(l) {
            Value::True => 2,
            Value::False => 3,
            Value::Open => 4,
        };
        log.push(noted)?;
    }
    Ok(())
}

/// A second assumption on one that is quiet, and what is true after it is taken back.
fn assume_on_top<P: Propagate>(clauses: &mut P, lits: &[Lit], log: &mut Vec<u8>) -> Result<(), Fail>
    requires { (first : List ℕ) × ((P.state clauses.old).assumptions ≡
        record { answer = Quiet; assumed = first } ∷ []) }
    ensures { OnOk result ((P.state clauses.new).assumptions ≡ (P.state clauses.old).assumptions) }
{
    match clauses.assume(lits)? {
        Answer::Clash => log.push(1)?,
        Answer::Quiet => note_values(clauses, log)?,
    }
    clauses.undo();
    note_values(clauses, log)
}

/// Two assumptions, one on the other, taken back in turn.
fn assume_twice<P: Propagate>(
    clauses: &mut P,
    first: &[Lit],
    second: &[Lit],
    log: &mut Vec<u8>,
) -> Result<(), Fail>
    requires { (P.state clauses.old).assumptions ≡ [] }
    ensures { OnOk result ((P.state clauses.new).assumptions ≡ []) }
{
    match clauses.assume(first)? {
        Answer::Clash => {
            clauses.undo();
            log.push(1)?;
        }
        Answer::Quiet => {
            note_values(clauses, log)?;
            assume_on_top(clauses, second, log)?;
            clauses.undo();
        }
    }
    Ok(())
}

/// Notes how many clauses have each literal.
fn note_counts<P: Propagate>(clauses: &P, log: &mut Vec<u8>) -> Result<(), Fail> {
    for var in 1..8 {
        let l = Lit::new(var).ok_or("no literal")?;
        log.push(clauses.count_with(l).min(255) as u8)?;
        log.push(clauses.count_with(l.neg()).min(255) as u8)?;
    }
    Ok(())
}

/// Takes out a clause if it is there, and notes whether it is the reason of a root-level literal.
fn take_out<P: Propagate>(clauses: &mut P, lits: &[Lit], log: &mut Vec<u8>) -> Result<(), Fail>
    requires { (P.state clauses.old).assumptions ≡ [] }
    ensures { OnOk result ((P.state clauses.new).assumptions ≡ []) }
{
    if let Some(slot) = clauses.find(lits) {
        log.push(if clauses.is_root_reason(slot)? { 6 } else { 5 })?;
        clauses.remove(slot);
    }
    Ok(())
}

/// Inserts a clause of one to four literals, takes out one of one or two if it is there, and
/// assumes one clause and on it another.
fn change<P: Propagate>(
    alloc: Global,
    clauses: &mut P,
    dice: &mut Dice,
    log: &mut Vec<u8>,
) -> Result<(), Fail>
    requires { (P.state clauses.old).assumptions ≡ [] }
    ensures { OnOk result ((P.state clauses.new).assumptions ≡ []) }
{
    let added = dice.literals_up_to(alloc, 4)?;
    clauses.insert(added.as_slice())?;
    let gone = dice.literals_up_to(alloc, 2)?;
    take_out(clauses, gone.as_slice(), log)?;
    note_counts(clauses, log)?;
    let first = dice.literals(alloc, 1)?;
    let second = dice.literals(alloc, 2)?;
    assume_twice(clauses, first.as_slice(), second.as_slice(), log)
}

/// What is answered in a sequence of changes.
fn answers<P: Fresh>(alloc: Global, seed: u64, changes: u32) -> Result<Vec<u8>, Fail> {
    let mut clauses = P::fresh(alloc)?;
    let mut dice = Dice { state: seed };
    let mut log = Vec::new(alloc);
    for _ in 0..changes {
        change(alloc, &mut clauses, &mut dice, &mut log)?;
    }
    Ok(log)
}

#[test]
fn both_answer_alike(rt: HostRuntime) -> Result<(), Fail> {
    let alloc = rt.alloc();
    for seed in 0..300 {
        let scanned = answers::<Scan>(alloc, seed, 24)?;
        let watched = answers::<Watch>(alloc, seed, 24)?;
        expect_true(scanned.len() > 24)?;
        expect_true(scanned == watched)?;
    }
    Ok(())
}

/// How many entries the lists have, and how many literals are true, after an assumption.
fn counts_of<P: Watching>(alloc: Global) -> Result<(u64, usize, usize), Fail> {
    let mut watch = P::fresh(alloc)?;
    fill(alloc, &mut watch, &[[1, 2], [-1, 3], [1, 1], [4, -4]])?;
    let _ = watch.assume(&[])?;
    watch.undo();
    fill(alloc, &mut watch, &[[5, -5]])?;
    let tautology = literals(alloc, &[11, 12, 13, 14, 15, 16, 17, 18, 19, -11])?;
    watch.insert(tautology.as_slice())?;
    let other = literals(alloc, &[11, 12, 13, 14, 15, 16, 17, 18, 19, 20])?;
    watch.insert(other.as_slice())?;
    let _ = watch.assume(&[])?;
    let (watched, short) = watch.entries()?;
    Ok((watched, short, watch.true_literals()))
}

#[test]
fn counts_entries(rt: HostRuntime) -> Result<(), Fail> {
    expect_equal(counts_of::<Watch>(rt.alloc())?, (6, 1, 2))
}
