//! The trail: the literals that are true, in the order in which they were set.
//!
//! They are of different variables that were all reserved, so there is room for each.
//!

mod values;

ghost use Rattle.std.specs.Prelude.{◌≡◌, ℕ, ◌*◌, ◌/◌, ◌-◌, ◌==◌, ◌<◌, ◌≤◌, ◌||◌, ◌&&◌, not, []};
ghost use Rattle.std.specs.Prelude.{◌∷◌, ◌++◌, filter, length, map, take, is_some, IsSome, IsTrue};
ghost use Rattle.std.specs.Prelude.{true, IsFalse, ◌↔◌, IfSome, IfNone, IfOk, OnOk, OnErr, if◌then◌else◌};
ghost use Rattle.std.specs.List.{remove};
ghost use Rattle.cnf_base.specs.Literals.{complement, has, variable};
ghost use Rattle.theory.specs.Propagation.{open_literals};
ghost use Rattle.trail.specs.Left.{AreFalseBetween, AreFalseFrom, IsNonFalseAt, how_many};
ghost use Rattle.trail.specs.Trail.{value_under, is_variable, HasNoVariableTwice, HasRoom};
ghost use Rattle.trail.specs.Trail.{MakesFalse};
ghost use Rattle.theory.specs.Sets.{SameSet, conflicts};
ghost use Rattle.trail.specs.declared.value.Value.TheVariants.{Open};

use self::values::{open_all, reserve_both, set_both};
use crate::assignment::Assignment;
use crate::dense::Dense;
use crate::left::Left;
use crate::part::Part;
use crate::truths::{Truths, left_of};
use crate::value::Value;
use cnf_base::{Lit, OutOfMemory};
use std::alloc::Global;
use std::marker::Model;
use tables::{ByKey, key};

/// The literals that are true, in the order in which they were set. No two are of one variable.
///
/// Room is made for a variable with [`Trail::reserve`]. From then on no other call takes memory for
/// it.
///
/// Contracts see a trail as the list of the literals and the set of the variables for which there
/// is room.
#[derive(Drop)]
pub struct Trail {
    /// It has room for one literal of each variable that was reserved.
    lits: Vec<Lit>,
    /// The variables that were reserved.
    seen: ByKey<bool>,
    /// These are all up to this one: to look each up would be a load that no cache has.
    dense: u32,
    /// How many these are.
    count: usize,
    /// By literal, for both literals of each variable that was reserved.
    values: ByKey<Value>,
}

impl Model for Trail {
    ghost use Rattle.std.specs.Prelude.{vec_capacity};
    ghost use Rattle.std.specs.Prelude.{◌≡◌, ◌<◌, ◌≤◌, ℕ, IsTrue, length};
    ghost use Rattle.trail.specs.Trail.{TrailState};
    ghost use Rattle.trail.specs.Code.Values.{IsTrail, reserved_in, seen_in};
    ghost use Rattle.tables.specs.ByKey.{at};

    ghost Value = { TrailState };

    // Each field has to be named here. The list of the true literals is shown; the tables by
    // variable and by literal have entries only for variables that were met.
    ghost view = { λ record { lits = lits; seen = seen; dense = _; count = _; values = _ }. record {
      lits = lits.items;
      reserved = reserved_in (seen_in seen);
    } };

    ghost invariant = { λ t.
        IsTrail t.lits.items (reserved_in (seen_in t.seen)) (vec_capacity t.lits) (seen_in t.seen)
        (at t.values) × (t.count ≡ length (reserved_in (seen_in t.seen)))
        × ((v : ℕ) → 0 < v → v ≤ t.dense → IsTrue (seen_in t.seen v)) };
}

/// The literal that says that the variable is true; none for 0 and past the greatest variable.
fn positive(var: u32) -> Option<Lit>
    ensures some { IfSome result (λ l. l ≡ 2 * var) }
    ensures variant { is_some result ≡ is_variable var }
{
    if var > Lit::MAX_VAR {
        return None;
    }
    Lit::new(var as i32)
}

/// Up to which variable all were reserved, where they were up to this one, and now another is.
fn dense_with(dense: u32, var: u32) -> u32
    ensures { (v : ℕ) → v ≤ result → dense < v → v ≡ var }
{
    if dense < var && var - dense == 1 {
        var
    } else {
        dense
    }
}

impl Truths for Trail {
    ghost trues = { λ t. t.lits };

    fn falsifies(&self, l: Lit) -> bool {
        self.is_false(l)
    }
}

impl Assignment for Trail {
    ghost trail_of = { λ t. t };

    #[cold]
    #[inline(never)]
    fn value_of(&self, l: Lit) -> Value {
        self.value(l)
    }
}

impl Trail {
    /// An empty trail. It has room for no variable.
    pub fn new(alloc: Global) -> Result<Self, OutOfMemory>
        ensures lits { IfOk result (λ t. t.lits ≡ []) }
        ensures reserved { IfOk result (λ t. t.reserved ≡ []) }
    {
        Ok(Trail {
            lits: Vec::new(alloc),
            seen: ByKey::new(alloc),
            dense: 0,
            count: 0,
            values: ByKey::new(alloc),
        })
    }

    /// Makes room for a variable. The room stays until the end of the trail. A number that is no
    /// literal's variable needs none.
    ///
    /// # Errors
    ///
    /// Where memory runs out. The trail is then as it was.
    #[inline(always)]
    pub fn reserve(&mut self, var: u32) -> Result<(), OutOfMemory>
        ensures reserved { OnOk result ((v : ℕ) → has self.new.reserved v ≡
            (has self.old.reserved v || (v == var && is_variable v))) }
        ensures lits { OnOk result (self.new.lits ≡ self.old.lits) }
        ensures err { OnErr result (self.new ≡ self.old) }
    {
        if self.has_room(var) {
            return Ok(());
        }
        self.reserve_anew(var)
    }

    /// Whether there is room for a variable.
    #[inline(always)]
    pub fn has_room(&self, var: u32) -> bool
        ensures { result ≡ has self.now.reserved var }
    {
        var.wrapping_sub(1) < self.dense || self.seen.get_or(var, false)
    }

    /// Makes room for a variable for which there is none.
    #[cold]
    #[inline(never)]
    fn reserve_anew(&mut self, var: u32) -> Result<(), OutOfMemory>
        requires { IsFalse (has self.old.reserved var) }
        ensures reserved { OnOk result ((v : ℕ) → has self.new.reserved v ≡
            (has self.old.reserved v || (v == var && is_variable v))) }
        ensures lits { OnOk result (self.new.lits ≡ self.old.lits) }
        ensures err { OnErr result (self.new ≡ self.old) }
    {
        let Some(lit) = positive(var) else {
            return Ok(());
        };
        self.lits.reserve(self.count + 1)?;
        reserve_both(&mut self.values, lit)?;
        self.seen.reserve(var, false)?;
        self.seen.set(var, true);
        self.count += 1;
        self.dense = dense_with(self.dense, var);
        Ok(())
    }

    /// Sets a literal whose variable has room and is open. It takes no memory.
    pub fn set(&mut self, l: Lit)
        requires reserved { IsTrue (has self.old.reserved (l / 2)) }
        requires open { value_under self.old.lits l ≡ Open }
        ensures lits { self.new.lits ≡ self.old.lits ++ l ∷ [] }
        ensures reserved { (v : ℕ) → has self.new.reserved v ≡ has self.old.reserved v }
    {
        self.lits.push_reserved(l);
        set_both(&mut self.values, l, Value::True, Value::False);
    }

    /// What the trail says of a literal. It takes no memory.
    pub fn value(&self, l: Lit) -> Value
        ensures value { result ≡ value_under self.now.lits l }
        ensures different { HasNoVariableTwice self.now.lits }
    {
        self.values.get_or(key(l), Value::Open)
    }

    /// How many literals were set. They are at most as many as the variables for which there is
    /// room.
    #[tactic(auto, using(crate::proofs::TrailLemmas::Values::fits_within))]
    pub fn len(&self) -> usize
        ensures value { result ≡ length self.now.lits }
        ensures different { HasNoVariableTwice self.now.lits }
        ensures within { (v : ℕ) → IsTrue (has (map variable self.now.lits) v) →
            IsTrue (has self.now.reserved v) }
        ensures fits { length self.now.lits ≤ length self.now.reserved }
    {
        self.lits.len()
    }

    /// Whether no literal was set.
    pub fn is_empty(&self) -> bool
        ensures { IsTrue result ↔ (self.now.lits ≡ []) }
    {
        self.lits.is_empty()
    }

    /// Takes back all but the first `n` literals. It takes no memory.
    pub fn undo_to(&mut self, n: usize)
        requires { n ≤ length self.old.lits }
        ensures lits { self.new.lits ≡ take n self.old.lits }
        ensures reserved { (v : ℕ) → has self.new.reserved v ≡ has self.old.reserved v }
    {
        open_all(&mut self.values, &self.lits[n..]);
        self.lits.truncate(n);
    }

    /// Takes one literal back, and leaves the others in their order. It takes no memory.
    pub fn take_out(&mut self, place: usize)
        requires { place < length self.old.lits }
        ensures lits { self.new.lits ≡ remove self.old.lits place }
        ensures reserved { (v : ℕ) → has self.new.reserved v ≡ has self.old.reserved v }
    {
        let l = self.lits.remove(place);
        set_both(&mut self.values, l, Value::Open, Value::Open);
    }

    /// The literals, in the order in which they were set.
    pub fn lits(&self) -> &[Lit]
        ensures value { result.now ≡ self.now.lits }
        ensures different { HasNoVariableTwice self.now.lits }
    {
        self.lits.as_slice()
    }

    /// Makes room for the variables of a clause.
    ///
    /// # Errors
    ///
    /// Where memory runs out. Room for some of them may have been made then.
    pub fn reserve_all(&mut self, clause: &[Lit]) -> Result<(), OutOfMemory>
        ensures room { OnOk result (HasRoom self.new.reserved clause.now) }
        ensures reserved { (v : ℕ) → IsTrue (has self.old.reserved v) →
            IsTrue (has self.new.reserved v) }
        ensures lits { self.new.lits ≡ self.old.lits }
    {
        if self.has_room_near(clause) {
            return Ok(());
        }
        self.reserve_each(clause)
    }

    /// The same where there may be no room yet.
    #[cold]
    #[inline(never)]
    fn reserve_each(&mut self, clause: &[Lit]) -> Result<(), OutOfMemory>
        ensures room { OnOk result (HasRoom self.new.reserved clause.now) }
        ensures reserved { (v : ℕ) → IsTrue (has self.old.reserved v) →
            IsTrue (has self.new.reserved v) }
        ensures lits { self.new.lits ≡ self.old.lits }
    {
        for l in clause {
            self.reserve(l.var())?;
        }
        Ok(())
    }

    /// Whether there is room for the variables of a clause, which the near ones alone may say. The
    /// loop holds their array: else it would read its place for each literal.
    #[inline(always)]
    pub fn has_room_near(&self, clause: &[Lit]) -> bool
        ensures { result ≡ true → HasRoom self.now.reserved clause.now }
    {
        let near = self.seen.near();
        for l in clause {
            match near.get(l.var() as usize) {
                Some(true) => {}
                _ => return false,
            }
        }
        true
    }

    /// Sets a literal that is not false, unless it is true already. Tells whether it was open. It
    /// takes no memory.
    pub fn make_true(&mut self, l: Lit) -> bool
        requires reserved { IsTrue (has self.old.reserved (l / 2)) }
        requires not_false { IsFalse (has self.old.lits (complement l)) }
        ensures was_open { result ≡ not (has self.old.lits l) }
        ensures lits { self.new.lits ≡
            (if result then self.old.lits ++ l ∷ [] else self.old.lits) }
        ensures quiet { IsFalse (conflicts self.new.lits) }
        ensures reserved { SameSet self.new.reserved self.old.reserved }
    {
        let is_open = self.value(l) == Value::Open;
        if is_open {
            self.set(l);
        }
        is_open
    }

    /// Whether the literal is true.
    pub fn is_true(&self, l: Lit) -> bool
        ensures { result ≡ has self.now.lits l }
    {
        matches!(self.value(l), Value::True)
    }

    /// Whether the literal is false.
    #[tactic(auto, using(crate::proofs::TrailLemmas::MakesFalse::value_not_false))]
    pub fn is_false(&self, l: Lit) -> bool
        ensures { result ≡ has self.now.lits (complement l) }
    {
        matches!(self.value(l), Value::False)
    }

    /// Makes the literals of a part of a clause false, up to the first that is true. Tells whether
    /// there is one, so that a literal and its complement would be true. It takes no memory.
    #[tactic(auto, using(crate::proofs::TrailLemmas::MakesFalse::false_steps))]
    pub fn make_false<P: Part>(&mut self, clause: &[Lit], part: &P) -> bool
        requires { HasRoom self.old.reserved clause.now }
        ensures made { MakesFalse self.old.lits
            (filter (P.keeps part.now) clause.now) result self.new.lits }
        ensures begins { take (length self.old.lits) self.new.lits ≡ self.old.lits }
        ensures longer { length self.old.lits ≤ length self.new.lits }
        ensures reserved { SameSet self.new.reserved self.old.reserved }
    {
        let _different = self.len();
        for l in clause {
            if part.keeps_literal(*l) {
                match self.value(*l) {
                    Value::True => return true,
                    Value::False => {}
                    Value::Open => self.set(l.neg()),
                }
            }
        }
        false
    }

    /// The trail with its values in one array, where none of them lies far.
    #[inline(always)]
    pub fn dense(&self) -> Option<Dense<'_>>
        ensures { IfSome result (λ d. d ≡ self.now) }
    {
        let values = self.values.all_near()?;
        Some(Dense::new(self, values))
    }

    /// The first place of a clause from this one on whose literal is not false. It takes no memory.
    pub fn first_non_false(&self, clause: &[Lit], from: usize) -> Option<usize>
        ensures found { IfSome result (IsNonFalseAt self.now.lits clause.now from) }
        ensures first { IfSome result (λ place.
            AreFalseBetween self.now.lits clause.now from place) }
        ensures none { IfNone result (AreFalseFrom self.now.lits clause.now from) }
    {
        for place in from..clause.len() {
            if !self.is_false(clause[place]) {
                return Some(place);
            }
        }
        None
    }

    /// What is left of a clause. It takes no memory.
    pub fn left(&self, clause: &[Lit]) -> Left
        ensures { result ≡ how_many (open_literals self.now.lits clause.now) }
    {
        left_of(self, clause)
    }
}
