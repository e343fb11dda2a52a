//! The number of each variable that was met.
//!
//! Literals are put under numbers in two walks: the first one reads the array of near names and
//! nothing else, as nearly all names are met and near, and the second one begins where it stopped.

ghost use Rattle.std.specs.Prelude.{◌≡◌, ◌≢◌, ℕ, ◌+◌, ◌*◌, ◌%◌, ◌≤◌, ◌↔◌, [], ◌∷◌, ◌++◌, IsFalse};
ghost use Rattle.std.specs.Prelude.{IsSome, IfSome, IfOk, OnOk, OnErr, IsTrue, map, take, length};
ghost use Rattle.std.specs.Prelude.{vec_len, vec_capacity, slice_get, unwrap_or};
ghost use Rattle.cnf_base.specs.Literals.{has, variable};
ghost use Rattle.theory.specs.Renaming.{renamed};
ghost use Rattle.numbering.specs.Names.{number_in, with_name, with_names};
ghost use Rattle.numbering.specs.Code.Numbers.{number_at};
ghost use Rattle.numbering.specs.Code.Recents.{AreRecent};
ghost use Rattle.tables.specs.ByKey.{at};

use crate::recent::Recents;
use cnf_base::{Lit, Number, OutOfMemory};
use std::alloc::Global;
use std::marker::Model;
use std::mem;
use tables::ByKey;

/// Variables under numbers from 1, in the order in which they are met.
///
/// The numbers of near variables stand in an array, those of far ones in a tree, and those of the
/// far ones that were looked up last beside it. So memory goes by how many variables were met, and
/// by the size of none.
///
/// Contracts see it as the list of the variables that were met, in the order of their numbers.
#[derive(Drop)]
pub struct Numbering {
    /// The number of each variable that was met, 0 for others.
    numbers: ByKey<u32>,
    /// How many variables were met.
    count: u32,
    /// Far variables that were looked up last, with the numbers that they have in `numbers`.
    recent: Recents,
}

impl Model for Numbering {
    ghost use Rattle.std.specs.Prelude.{ℕ, List};
    ghost use Rattle.numbering.specs.Code.Numbers.{IsNumbering, names_of, number_at};
    ghost use Rattle.numbering.specs.Code.Recents.{AreRecent};

    ghost Value = { List ℕ };

    // Each field has to be named here. A number's name is looked for among all variables. `recent`
    // has names and numbers that `numbers` has too, and no literal of a clause.
    ghost view = { λ record { numbers = numbers; count = count; recent = _ }.
        names_of (number_at numbers) count };

    ghost invariant = { λ n. IsNumbering (number_at n.numbers) n.count
        × AreRecent (number_at n.numbers) n.recent };
}

/// The literal under this number in place of its variable; none for 0 and past the greatest one.
#[inline(always)]
fn under(l: Lit, number: u32) -> Option<Lit>
    ensures some { IsSome result ↔ ((1 ≤ number) × (number ≤ 268435455)) }
    ensures value { IfSome result (λ m. m ≡ 2 * number + l % 2) }
{
    Lit::from_number(Number {
        is_negative: l.index() % 2 == 1,
        size: u64::from(number),
    })
}

/// The number that stands at a variable among the first ones, 0 where it is not one of these.
#[inline(always)]
fn number_among(numbers: &[u32], name: u32) -> u32
    ensures { result ≡ unwrap_or (slice_get numbers.now name) 0 }
{
    numbers.get(name as usize).copied().unwrap_or(0)
}

/// Makes room for the number of a variable, and where it is far, for one that is looked up.
fn reserve(numbers: &mut ByKey<u32>, recent: &mut Recents, name: u32) -> Result<(), OutOfMemory>
    ensures room { OnOk result (IsSome (at numbers.new name)) }
    ensures same { (v : ℕ) → number_at numbers.new v ≡ number_at numbers.old v }
    ensures recent { (number : ℕ → ℕ) → AreRecent number recent.old →
        AreRecent number recent.new }
{
    numbers.reserve(name, 0)?;
    if name as usize >= numbers.near().len() {
        recent.reserve()?;
    }
    Ok(())
}

/// Notes the number of a variable where it is far.
fn note(numbers: &ByKey<u32>, recent: &mut Recents, name: u32, number: u32)
    ensures { (of : ℕ → ℕ) → AreRecent of recent.old → number ≢ 0 → of name ≡ number →
        AreRecent of recent.new }
{
    if name as usize >= numbers.near().len() {
        recent.note(name, number);
    }
}

impl Numbering {
    /// No variable was met. It takes no memory.
    pub fn new(alloc: Global) -> Self
        ensures { result ≡ [] }
    {
        Numbering {
            numbers: ByKey::new(alloc),
            count: 0,
            recent: Recents::new(alloc),
        }
    }

    /// The number of a variable that is near or was looked up last; 0 for others.
    #[inline(always)]
    fn known(&self, name: u32) -> u32
        ensures met { 1 ≤ name → result ≢ 0 → IsTrue (has self.now name) }
        ensures number { 1 ≤ name → result ≢ 0 → number_in self.now name ≡ result }
    {
        match self.numbers.near().get(name as usize) {
            Some(number) => *number,
            None => self.recent.get(name),
        }
    }

    /// The literal under the number of its variable, a new one where the variable wasn't met.
    ///
    /// # Errors
    ///
    /// Where memory runs out. The numbering is then as it was.
    #[inline(always)]
    pub fn number(&mut self, l: Lit) -> Result<Lit, OutOfMemory>
        ensures names { OnOk result (self.new ≡ with_name self.old (variable l)) }
        ensures literal { IfOk result (λ m. m ≡ renamed (number_in self.new) l) }
        ensures refused { OnErr result (self.new ≡ self.old) }
    {
        match under(l, self.known(l.var())) {
            Some(numbered) => Ok(numbered),
            None => self.number_unknown(l),
        }
    }

    /// The same where the variable is far, or wasn't met.
    #[cold]
    #[inline(never)]
    fn number_unknown(&mut self, l: Lit) -> Result<Lit, OutOfMemory>
        ensures names { OnOk result (self.new ≡ with_name self.old (variable l)) }
        ensures literal { IfOk result (λ m. m ≡ renamed (number_in self.new) l) }
        ensures refused { OnErr result (self.new ≡ self.old) }
    {
        let number = self.numbers.get_or(l.var(), 0);
        match under(l, number) {
            Some(numbered) => {
                note(&self.numbers, &mut self.recent, l.var(), number);
                Ok(numbered)
            }
            None => self.number_anew(l),
        }
    }

    /// The literal under a new number, where its variable wasn't met.
    fn number_anew(&mut self, l: Lit) -> Result<Lit, OutOfMemory>
        requires { IsFalse (has self.old (variable l)) }
        ensures names { OnOk result (self.new ≡ self.old ++ variable l ∷ []) }
        ensures literal { IfOk result (λ m. m ≡ renamed (number_in self.new) l) }
        ensures refused { OnErr result (self.new ≡ self.old) }
    {
        let name = l.var();
        reserve(&mut self.numbers, &mut self.recent, name)?;
        let number = self.count + 1;
        self.numbers.set(name, number);
        self.count = number;
        note(&self.numbers, &mut self.recent, name, number);
        Ok(under(l, number).unwrap_or(l))
    }

    /// The literal under the number of its variable, or under the next number where the variable
    /// wasn't met. It takes no memory.
    #[inline(always)]
    pub fn find(&self, l: Lit) -> Lit
        ensures { result ≡ renamed (number_in self.now) l }
    {
        match under(l, self.known(l.var())) {
            Some(numbered) => numbered,
            None => self.find_unknown(l),
        }
    }

    /// The same where the variable is far, or wasn't met.
    #[cold]
    #[inline(never)]
    fn find_unknown(&self, l: Lit) -> Lit
        ensures { result ≡ renamed (number_in self.now) l }
    {
        match under(l, self.numbers.get_or(l.var(), 0)) {
            Some(numbered) => numbered,
            None => self.find_next(l),
        }
    }

    /// The literal under the next number, where its variable wasn't met.
    fn find_next(&self, l: Lit) -> Lit
        requires { IsFalse (has self.now (variable l)) }
        ensures { result ≡ renamed (number_in self.now) l }
    {
        let next = self.count + 1;
        under(l, next).unwrap_or(l)
    }

    /// Puts literals under numbers, up to the first one whose variable is far or wasn't met.
    #[inline(always)]
    fn number_near(&self, lits: &[Lit], numbered: &mut Vec<Lit>)
        requires empty { numbered.old.items ≡ [] }
        requires room { length lits.now ≤ vec_capacity numbered.old }
        ensures met { with_names self.now (take (vec_len numbered.new) lits.now) ≡ self.now }
        ensures literals { numbered.new.items ≡
            map (renamed (number_in self.now)) (take (vec_len numbered.new) lits.now) }
        ensures within { vec_len numbered.new ≤ length lits.now }
        ensures room { length lits.now ≤ vec_capacity numbered.new }
    {
        let near = self.numbers.near();
        // The length of a local list stays in a register. What it leaves behind has no memory.
        let mut known = mem::replace(numbered, Vec::new(*numbered.allocator()));
        while known.len() < lits.len() {
            let l = lits[known.len()];
            match under(l, number_among(near, l.var())) {
                Some(l) => known.push_reserved(l),
                None => break,
            }
        }
        mem::forget(mem::replace(numbered, known));
    }

    /// Puts the literals under numbers, new ones where their variables weren't met.
    ///
    /// # Errors
    ///
    /// Where memory runs out.
    pub fn number_all(&mut self, lits: &[Lit], numbered: &mut Vec<Lit>) -> Result<(), OutOfMemory>
        requires { numbered.old.items ≡ [] }
        ensures names { OnOk result (self.new ≡ with_names self.old lits.now) }
        ensures literals { OnOk result (numbered.new.items ≡
            map (renamed (number_in self.new)) lits.now) }
    {
        if numbered.capacity() < lits.len() {
            return self.number_growing(lits, numbered);
        }
        self.number_near(lits, numbered);
        if numbered.len() < lits.len() {
            return self.number_rest(lits, numbered);
        }
        Ok(())
    }

    /// The same where there is no room yet.
    #[cold]
    #[inline(never)]
    fn number_growing(&mut self, lits: &[Lit], numbered: &mut Vec<Lit>) -> Result<(), OutOfMemory>
        requires { numbered.old.items ≡ [] }
        ensures names { OnOk result (self.new ≡ with_names self.old lits.now) }
        ensures literals { OnOk result (numbered.new.items ≡
            map (renamed (number_in self.new)) lits.now) }
    {
        numbered.reserve(lits.len())?;
        self.number_rest(lits, numbered)
    }

    /// Goes on where all literals before are under numbers.
    #[inline(never)]
    fn number_rest(&mut self, lits: &[Lit], numbered: &mut Vec<Lit>) -> Result<(), OutOfMemory>
        requires met { with_names self.old (take (vec_len numbered.old) lits.now) ≡ self.old }
        requires literals { numbered.old.items ≡
            map (renamed (number_in self.old)) (take (vec_len numbered.old) lits.now) }
        requires within { vec_len numbered.old ≤ length lits.now }
        requires room { length lits.now ≤ vec_capacity numbered.old }
        ensures names { OnOk result (self.new ≡ with_names self.old lits.now) }
        ensures literals { OnOk result (numbered.new.items ≡
            map (renamed (number_in self.new)) lits.now) }
    {
        for i in numbered.len()..lits.len() {
            let l = self.number(lits[i])?;
            numbered.push_reserved(l);
        }
        Ok(())
    }

    /// Puts the literals under numbers. Variables that weren't met get none: they stand under the
    /// next one, which no variable has.
    ///
    /// # Errors
    ///
    /// Where memory runs out.
    pub fn find_all(&self, lits: &[Lit], numbered: &mut Vec<Lit>) -> Result<(), OutOfMemory>
        requires { numbered.old.items ≡ [] }
        ensures literals { OnOk result (numbered.new.items ≡
            map (renamed (number_in self.now)) lits.now) }
    {
        if numbered.capacity() < lits.len() {
            return self.find_growing(lits, numbered);
        }
        self.number_near(lits, numbered);
        if numbered.len() < lits.len() {
            self.find_rest(lits, numbered);
        }
        Ok(())
    }

    /// The same where there is no room yet.
    #[cold]
    #[inline(never)]
    fn find_growing(&self, lits: &[Lit], numbered: &mut Vec<Lit>) -> Result<(), OutOfMemory>
        requires { numbered.old.items ≡ [] }
        ensures literals { OnOk result (numbered.new.items ≡
            map (renamed (number_in self.now)) lits.now) }
    {
        numbered.reserve(lits.len())?;
        self.find_rest(lits, numbered);
        Ok(())
    }

    /// Goes on where all literals before are under numbers.
    #[inline(never)]
    fn find_rest(&self, lits: &[Lit], numbered: &mut Vec<Lit>)
        requires literals { numbered.old.items ≡
            map (renamed (number_in self.now)) (take (vec_len numbered.old) lits.now) }
        requires within { vec_len numbered.old ≤ length lits.now }
        requires room { length lits.now ≤ vec_capacity numbered.old }
        ensures { numbered.new.items ≡ map (renamed (number_in self.now)) lits.now }
    {
        for i in numbered.len()..lits.len() {
            numbered.push_reserved(self.find(lits[i]));
        }
    }
}
