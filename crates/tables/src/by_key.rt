//! Values by small numbers.
//!
//! Keys come densely numbered, and most have their value in an array, where a key below its length
//! has room without a look. Those that lie far from the others stand in a balanced tree, where no
//! choice of keys makes a look-up long.

ghost use Rattle.std.specs.Prelude.{◌≡◌, ℕ, ◌==◌, ◌<◌, ◌≤◌, if◌then◌else◌, unwrap_or, vec_len};
ghost use Rattle.std.specs.Prelude.{IsSome, IfSome, OnOk, Some, None, length, slice_get};
ghost use Rattle.std.specs.Ordering.{nat_cmp};
ghost use Rattle.std.specs.BTreeMap as tree;
ghost use Rattle.tables.specs.ByKey.{HaveRoom, is_of, value_in};
ghost use Rattle.tables.specs.Code.ByKey.{IsWidened};

use crate::growth::len_for;
use cnf_base::{Lit, OutOfMemory};
use std::alloc::Global;
use std::collections::BTreeMap;

/// Values by keys. Room for one key may make room for others that are near.
///
/// The keys below `near.len()` have their values in `near`, all others in `far`. A value in `near`
/// hides one in `far`.
#[derive(Drop)]
pub struct ByKey<T> {
    near: Vec<T>,
    far: BTreeMap<u32, T>,
}

/// The key of a literal.
pub fn key(l: Lit) -> u32
    ensures { result ≡ l }
{
    l.index() as u32
}

/// Writes the value at the key, for which there is room.
#[inline(always)]
fn write<T: Copy + Drop>(near: &mut [T], far: &mut BTreeMap<u32, T>, key: u32, value: T)
    requires { IsSome (value_in near.old far.old key) }
    ensures values { (k : ℕ) → value_in near.new far.new k ≡
        (if k == key then Some value else value_in near.old far.old k) }
    ensures len { length near.new ≡ length near.old }
{
    if (key as usize) < near.len() {
        near[key as usize] = value;
    } else {
        write_far(far, key, value);
    }
}

#[cold]
#[inline(never)]
fn write_far<T: Copy + Drop>(far: &mut BTreeMap<u32, T>, key: u32, value: T)
    requires { IsSome (tree.get nat_cmp far.old key) }
    ensures { (k : ℕ) → tree.get nat_cmp far.new k ≡
        (if k == key then Some value else tree.get nat_cmp far.old k) }
{
    let _ = far.insert(key, value);
}

#[tactic(auto, unfolding(crate::specs::ByKey::at))]
impl<T: Copy + Drop> ByKey<T> {
    ghost use Rattle.tables.specs.ByKey.{at};

    /// No values. It takes no memory.
    pub fn new(alloc: Global) -> Self
        ensures { (k : ℕ) → at result k ≡ None }
    {
        ByKey {
            near: Vec::new(alloc),
            far: BTreeMap::new(alloc),
        }
    }

    /// The value at the key.
    #[inline(always)]
    pub fn get(&self, key: u32) -> Option<T>
        ensures { result ≡ at self.now key }
    {
        match self.near.as_slice().get(key as usize) {
            Some(value) => Some(*value),
            None => self.get_far(key),
        }
    }

    #[cold]
    #[inline(never)]
    fn get_far(&self, key: u32) -> Option<T>
        ensures { result ≡ tree.get nat_cmp self.now.far key }
    {
        let value = self.far.get(&key)?;
        Some(*value)
    }

    /// The value at the key, or this one where it has none.
    #[inline(always)]
    pub fn get_or(&self, key: u32, first: T) -> T
        ensures { result ≡ unwrap_or (at self.now key) first }
    {
        self.get(key).unwrap_or(first)
    }

    /// The values of the keys below the length of this, in their order.
    #[inline(always)]
    pub fn near(&self) -> &[T]
        ensures { (k : ℕ) → k < length result.now → slice_get result.now k ≡ at self.now k }
    {
        self.near.as_slice()
    }

    /// The values of all keys that have one, by key, where none of them lies far.
    #[inline(always)]
    pub fn all_near(&self) -> Option<&[T]>
        ensures { IfSome result (λ values. (k : ℕ) → slice_get values.now k ≡ at self.now k) }
    {
        if self.far.is_empty() {
            Some(self.near.as_slice())
        } else {
            None
        }
    }

    /// Writes the value at the key, for which there is room.
    #[inline(always)]
    pub fn set(&mut self, key: u32, value: T)
        requires { IsSome (at self.old key) }
        ensures { (k : ℕ) → at self.new k ≡ (if k == key then Some value else at self.old k) }
    {
        write(self.near.as_mut_slice(), &mut self.far, key, value);
    }

    /// Writes the value at these literals' keys and at their complements', for which there is room.
    /// The loop holds the array: else it would read its place for each literal.
    #[inline(always)]
    pub fn set_all(&mut self, lits: &[Lit], value: T)
        requires { HaveRoom (at self.old) lits.now }
        ensures { (k : ℕ) → at self.new k ≡ (if is_of lits.now k then Some value
            else at self.old k) }
    {
        let near = self.near.as_mut_slice();
        let far = &mut self.far;
        for l in lits {
            write(near, far, key(*l), value);
            write(near, far, key(l.neg()), value);
        }
    }

    /// Makes room for the key, and perhaps for others. Those that had none get this value.
    #[inline(always)]
    pub fn reserve(&mut self, key: u32, first: T) -> Result<(), OutOfMemory>
        ensures room { OnOk result (IsSome (at self.new key)) }
        ensures same { (k : ℕ) →
            unwrap_or (at self.new k) first ≡ unwrap_or (at self.old k) first }
        ensures kept { (k : ℕ) → IsSome (at self.old k) → IsSome (at self.new k) }
    {
        if (key as usize) < self.near.len() {
            return Ok(());
        }
        self.reserve_far(key, first)
    }

    /// Makes room for a key that isn't in `near`. Where it is near by now, `near` comes to have it.
    #[cold]
    #[inline(never)]
    fn reserve_far(&mut self, key: u32, first: T) -> Result<(), OutOfMemory>
        ensures widened { IsWidened first self.old self.new }
        ensures room { OnOk result (IsSome (at self.new key)) }
    {
        if let Some(len) = len_for(key, self.near.len(), self.far.len()) {
            return self.widen(len, first);
        }
        if !self.far.contains_key(&key) {
            self.far.insert(key, first)?;
        }
        Ok(())
    }

    /// Lengthens `near`, with what `far` has there.
    fn widen(&mut self, len: usize, first: T) -> Result<(), OutOfMemory>
        requires { len ≤ 4294967296 }
        ensures widened { IsWidened first self.old self.new }
        ensures long { OnOk result (len ≤ vec_len self.new.near) }
    {
        for key in self.near.len()..len {
            let value = self.get_far(key as u32).unwrap_or(first);
            self.near.push(value)?;
        }
        Ok(())
    }
}
