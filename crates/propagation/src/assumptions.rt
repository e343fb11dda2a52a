//! The assumptions that stand, and the literals that are true.

ghost use Rattle.std.specs.Prelude.{◌≡◌, ◌≢◌, ◌<◌, ◌≤◌, ℕ, ◌/◌, ◌++◌, ◌∷◌, [], not, filter, take};
ghost use Rattle.std.specs.Prelude.{drop};
ghost use Rattle.std.specs.Prelude.{length, slice_index, is_some, List, IsTrue, IsFalse, IsSome};
ghost use Rattle.std.specs.Prelude.{IfOk, OnOk, OnErr, if◌then◌else◌};
ghost use Rattle.std.specs.Bool.{OnFalse};
ghost use Rattle.std.specs.List.{remove};
ghost use Rattle.cnf_base.specs.Literals.{Literal, complement, complements, has};
ghost use Rattle.propagation.specs.Assumptions.{Assumption, MayAssume, assumed_by, roots_in};
ghost use Rattle.propagation.specs.Code.Levels.{Notes};
ghost use Rattle.trail.specs.Numbers.{number_at};
ghost use Rattle.tables.specs.ByKey.{at};
ghost use Rattle.trail.specs.Trail.{HasRoom};
ghost use Rattle.theory.specs.Sets.{SameSet, conflicts};
ghost use Rattle.propagation.specs.declared.answer.Answer.TheVariants.{Clash};

use crate::Answer;
use crate::levels::{Level, Levels};
use cnf_base::{Lit, OutOfMemory};
use std::alloc::Global;
use std::marker::Model;
use tables::ByKey;
use trail::{Part, Trail};

/// At most two assumptions that stand, the second on the first, and the literals that are true:
/// what each propagation has in common.
///
/// Contracts see the trail, the assumptions with their answers, and how many literals were true
/// before each.
#[derive(Drop)]
pub struct Assumptions {
    trail: Trail,
    /// By variable the number of the last assumption that has a literal of it. Those of assumptions
    /// that are taken back stay, and say nothing.
    numbers: ByKey<u64>,
    /// How many assumptions were made, which is the number of the last one.
    made: u64,
    levels: Levels,
}

impl Model for Assumptions {
    ghost use Rattle.propagation.specs.Assumptions.{AssumptionsState};
    ghost use Rattle.propagation.specs.Code.Levels.{IsNumbered, assumptions_of, starts_of};
    ghost use Rattle.trail.specs.Numbers.{number_at};
    ghost use Rattle.propagation.specs.Code.Coding.{assumptions_code};

    ghost Value = { AssumptionsState };

    ghost coded = { assumptions_code };

    // Each field has to be named here. Of them the trail alone has a list of literals, and shows it.
    ghost view = { λ record { trail = trail; numbers = numbers; made = _; levels = levels }. record {
      trail = trail;
      assumptions = assumptions_of (number_at numbers) trail.lits levels;
      starts = starts_of levels;
    } };

    ghost invariant = { λ a. IsNumbered a.trail a.numbers a.made a.levels };
}

/// Makes room for the variable of a literal.
fn reserve_variable(trail: &mut Trail, numbers: &mut ByKey<u64>, l: Lit) -> Result<(), OutOfMemory>
    requires known { (v : ℕ) → IsTrue (has trail.old.reserved v) → IsSome (at numbers.old v) }
    ensures room { OnOk result (IsTrue (has trail.new.reserved (l / 2))) }
    ensures reserved { (v : ℕ) → IsTrue (has trail.old.reserved v) →
        IsTrue (has trail.new.reserved v) }
    ensures others { (v : ℕ) → v ≢ l / 2 → has trail.new.reserved v ≡ has trail.old.reserved v }
    ensures lits { trail.new.lits ≡ trail.old.lits }
    ensures known { (v : ℕ) → IsTrue (has trail.new.reserved v) → IsSome (at numbers.new v) }
    ensures numbers { (v : ℕ) → number_at numbers.new v ≡ number_at numbers.old v }
{
    numbers.reserve(l.var(), 0)?;
    trail.reserve(l.var())
}

/// Makes room for the variables of the literals.
fn reserve_variables(
    trail: &mut Trail,
    numbers: &mut ByKey<u64>,
    lits: &[Lit],
) -> Result<(), OutOfMemory>
    requires known { (v : ℕ) → IsTrue (has trail.old.reserved v) → IsSome (at numbers.old v) }
    ensures room { OnOk result (HasRoom trail.new.reserved lits.now) }
    ensures reserved { (v : ℕ) → IsTrue (has trail.old.reserved v) →
        IsTrue (has trail.new.reserved v) }
    ensures lits { trail.new.lits ≡ trail.old.lits }
    ensures known { (v : ℕ) → IsTrue (has trail.new.reserved v) → IsSome (at numbers.new v) }
    ensures numbers { (v : ℕ) → number_at numbers.new v ≡ number_at numbers.old v }
{
    for l in lits {
        if !trail.has_room(l.var()) {
            reserve_variable(trail, numbers, *l)?;
        }
    }
    Ok(())
}

/// Notes the variable with the number, unless the first assumption noted it.
fn note(numbers: &mut ByKey<u64>, var: u32, first: u64, number: u64)
    requires { IsSome (at numbers.old var) }
    ensures other { (v : ℕ) → v ≢ var →
        number_at numbers.new v ≡ number_at numbers.old v }
    ensures old { number_at numbers.old var ≡ first → number_at numbers.new var ≡ first }
    ensures new { number_at numbers.old var ≢ first → number_at numbers.new var ≡ number }
    ensures known { (v : ℕ) → is_some (at numbers.new v) ≡ is_some (at numbers.old v) }
{
    if numbers.get(var) != Some(first) {
        numbers.set(var, number);
    }
}

/// Notes the variables of a part of a clause with the number, but for those that the first
/// assumption noted.
fn note_all<P: Part>(numbers: &mut ByKey<u64>, clause: &[Lit], part: &P, first: u64, number: u64)
    requires known { (l : Literal) → IsTrue (has clause.now l) →
        IsSome (at numbers.old (l / 2)) }
    ensures notes { Notes first number (filter (P.keeps part.now) clause.now)
        (number_at numbers.old) (number_at numbers.new) }
    ensures known { (v : ℕ) → is_some (at numbers.new v) ≡ is_some (at numbers.old v) }
{
    for l in clause {
        if part.keeps_literal(*l) {
            note(numbers, l.var(), first, number);
        }
    }
}

impl Assumptions {
    /// Nothing is assumed, and nothing is true.
    pub fn new(alloc: Global) -> Result<Self, OutOfMemory>
        ensures lits { IfOk result (λ a. a.trail.lits ≡ []) }
        ensures reserved { IfOk result (λ a. a.trail.reserved ≡ []) }
        ensures nothing_assumed { IfOk result (λ a. a.assumptions ≡ []) }
    {
        Ok(Assumptions {
            trail: Trail::new(alloc)?,
            numbers: ByKey::new(alloc),
            made: 0,
            levels: Levels::Nothing,
        })
    }

    /// The literals that are true.
    pub fn trail(&self) -> &Trail
        ensures { result.now ≡ self.now.trail }
    {
        &self.trail
    }

    /// Makes room for the variables of a clause.
    pub fn reserve(&mut self, clause: &[Lit]) -> Result<(), OutOfMemory>
        ensures room { OnOk result (HasRoom self.new.trail.reserved clause.now) }
        ensures reserved { (v : ℕ) → IsTrue (has self.old.trail.reserved v) →
            IsTrue (has self.new.trail.reserved v) }
        ensures lits { self.new.trail.lits ≡ self.old.trail.lits }
        ensures assumptions { self.new.assumptions ≡ self.old.assumptions }
        ensures starts { self.new.starts ≡ self.old.starts }
    {
        reserve_variables(&mut self.trail, &mut self.numbers, clause)
    }

    /// Makes room for the variable of a literal, and for no other.
    pub fn reserve_variable(&mut self, l: Lit) -> Result<(), OutOfMemory>
        ensures room { OnOk result (IsTrue (has self.new.trail.reserved (l / 2))) }
        ensures reserved { (v : ℕ) → IsTrue (has self.old.trail.reserved v) →
            IsTrue (has self.new.trail.reserved v) }
        ensures others { (v : ℕ) → v ≢ l / 2 →
            has self.new.trail.reserved v ≡ has self.old.trail.reserved v }
        ensures lits { self.new.trail.lits ≡ self.old.trail.lits }
        ensures assumptions { self.new.assumptions ≡ self.old.assumptions }
        ensures starts { self.new.starts ≡ self.old.starts }
    {
        reserve_variable(&mut self.trail, &mut self.numbers, l)
    }

    /// Sets a literal that is not false, unless it is true already. Tells whether it was open. It
    /// takes no memory.
    #[tactic(auto, using(crate::proofs::PropagationLemmas::Levels::true_steps))]
    pub fn make_true(&mut self, l: Lit) -> bool
        requires reserved { IsTrue (has self.old.trail.reserved (l / 2)) }
        requires not_false { IsFalse (has self.old.trail.lits (complement l)) }
        ensures was_open { result ≡ not (has self.old.trail.lits l) }
        ensures lits { self.new.trail.lits ≡
            (if result then self.old.trail.lits ++ l ∷ [] else self.old.trail.lits) }
        ensures quiet { IsFalse (conflicts self.new.trail.lits) }
        ensures reserved { SameSet self.new.trail.reserved self.old.trail.reserved }
        ensures assumptions { self.new.assumptions ≡ self.old.assumptions }
        ensures starts { self.new.starts ≡ self.old.starts }
    {
        self.trail.make_true(l)
    }

    /// One more assumption: makes a part of a clause false, up to the first literal of it that is
    /// true. Tells whether there is one. Until it is answered, it counts as a clash. It takes no
    /// memory.
    ///
    /// # Errors
    ///
    /// Where the numbers of assumptions are used up, after 2^64 - 1 of them. Nothing is changed
    /// then.
    pub fn assume<P: Part>(&mut self, clause: &[Lit], part: &P) -> Result<bool, OutOfMemory>
        requires may { MayAssume self.old.assumptions }
        requires room { HasRoom self.old.trail.reserved clause.now }
        ensures conflict { IfOk result (λ is_conflict.
            is_conflict ≡ conflicts
            (self.old.trail.lits ++ complements (filter (P.keeps part.now) clause.now))) }
        ensures added { IfOk result (λ is_conflict.
            OnFalse is_conflict (SameSet self.new.trail.lits
            (self.old.trail.lits ++ complements (filter (P.keeps part.now) clause.now)))) }
        ensures assumed { IfOk result (λ is_conflict. (all : List Literal) ×
            (self.new.assumptions ≡
            record { answer = Clash; assumed = all } ∷ self.old.assumptions)
            × OnFalse is_conflict (SameSet all
            (assumed_by self.old.assumptions
            ++ complements (filter (P.keeps part.now) clause.now)))) }
        ensures starts { OnOk result (self.new.starts ≡
            length self.old.trail.lits ∷ self.old.starts) }
        ensures begins { OnOk result (take (length self.old.trail.lits) self.new.trail.lits ≡
            self.old.trail.lits) }
        ensures reserved { SameSet self.new.trail.reserved self.old.trail.reserved }
        ensures err { OnErr result (self.new ≡ self.old) }
    {
        let Some(number) = self.made.checked_add(1) else {
            return Err(OutOfMemory);
        };
        let first = self.levels.first_number(number);
        let start = self.trail.len();
        self.made = number;
        self.levels = self.levels.pushed(Level {
            number,
            start,
            answer: Answer::Clash,
        });
        if self.trail.make_false(clause, part) {
            return Ok(true);
        }
        note_all(&mut self.numbers, clause, part, first, number);
        let _different = self.trail.len();
        Ok(false)
    }

    /// The last assumption is answered so. It takes no memory.
    pub fn answer(&mut self, answer: Answer)
        ensures assumptions { (last : Assumption) (rest : List Assumption) →
            self.old.assumptions ≡ last ∷ rest →
            self.new.assumptions ≡ record { answer = answer; assumed = last.assumed } ∷ rest }
        ensures starts { self.new.starts ≡ self.old.starts }
        ensures trail { self.new.trail ≡ self.old.trail }
    {
        self.levels = self.levels.answered(answer);
    }

    /// How many literals are true with nothing assumed.
    pub fn root_count(&self) -> usize
        ensures roots { roots_in self.now.trail.lits self.now.assumptions self.now.starts ≡
            take result self.now.trail.lits }
        ensures fits { result ≤ length self.now.trail.lits }
    {
        match self.levels {
            Levels::Nothing => self.trail.len(),
            Levels::One(first) => first.start,
            Levels::Two(first, _) => first.start,
        }
    }

    /// Keeps the first `n` literals true and no others, where nothing is assumed. It takes no
    /// memory.
    pub fn cut(&mut self, n: usize)
        requires nothing_assumed { self.old.assumptions ≡ [] }
        requires inside { n ≤ length self.old.trail.lits }
        ensures lits { self.new.trail.lits ≡ take n self.old.trail.lits }
        ensures reserved { SameSet self.new.trail.reserved self.old.trail.reserved }
        ensures assumptions { self.new.assumptions ≡ [] }
        ensures starts { self.new.starts ≡ self.old.starts }
    {
        self.trail.undo_to(n);
    }

    /// Takes one literal back, where nothing is assumed. It takes no memory.
    pub fn take_out(&mut self, place: usize)
        requires nothing_assumed { self.old.assumptions ≡ [] }
        requires inside { place < length self.old.trail.lits }
        ensures lits { self.new.trail.lits ≡ remove self.old.trail.lits place }
        ensures reserved { SameSet self.new.trail.reserved self.old.trail.reserved }
        ensures assumptions { self.new.assumptions ≡ [] }
        ensures starts { self.new.starts ≡ self.old.starts }
    {
        self.trail.take_out(place);
    }

    /// Takes back the last assumption, in constant time and with no memory.
    pub fn undo(&mut self)
        requires { self.old.assumptions ≢ [] }
        ensures assumptions { self.new.assumptions ≡ drop 1 self.old.assumptions }
        ensures starts { self.new.starts ≡ drop 1 self.old.starts }
        ensures lits { self.new.trail.lits ≡
            take (slice_index self.old.starts 0) self.old.trail.lits }
        ensures reserved { SameSet self.new.trail.reserved self.old.trail.reserved }
    {
        match self.levels {
            Levels::Nothing => {}
            Levels::One(first) => {
                self.trail.undo_to(first.start);
                self.levels = Levels::Nothing;
            }
            Levels::Two(first, second) => {
                self.trail.undo_to(second.start);
                self.levels = Levels::One(first);
            }
        }
    }
}
