//! Lists by small numbers.
//!
//! Keys come densely numbered, and their lists stand in an array, since most visits of a watch list
//! put an entry into another one. Those that lie far from the others stand in a balanced tree.

ghost use Rattle.std.specs.Prelude.{◌≡◌, ℕ, ◌+◌, ◌==◌, ◌++◌, ◌∷◌, [], length, min, vec_len};
ghost use Rattle.std.specs.Prelude.{if◌then◌else◌, IsTrue, OnOk, OnErr, false, ◌<◌, ◌≤◌, is_some};
ghost use Rattle.std.specs.BTreeMap as tree;
ghost use Rattle.std.specs.Ordering.{nat_cmp};
ghost use Rattle.tables.specs.Lists.{entries_in, far_at, has_list_at, list_at, total};
ghost use Rattle.tables.specs.Code.Lists.{AreSame, Pushes};

use crate::growth::{KEYS, len_for};
use cnf_base::OutOfMemory;
use std::alloc::Global;
use std::collections::BTreeMap;
use std::mem;

/// By key a list of entries.
///
/// The keys below `near.len()` have their lists in `near`, all others in `far`.
#[derive(Drop)]
pub struct Lists<T> {
    alloc: Global,
    near: Vec<Vec<T>>,
    far: BTreeMap<u32, Vec<T>>,
}

/// By how many entries a list grows at least.
const LEAST_GROWTH: usize = 3;

/// For how many entries a list keeps room, once it had as many. Watch lists of that length lose
/// most of their entries and get others all the time.
const LEAST_KEPT: usize = 256;

/// How many entries these lists have in all; `2^64 - 1` where they are more.
fn total_near<T: Copy + Drop>(lists: &Vec<Vec<T>>) -> u64
    ensures { result ≡ min (total lists.now.items) 18446744073709551615 }
{
    let mut entries: u64 = 0;
    for list in lists {
        entries = entries.saturating_add(list.len() as u64);
    }
    entries
}

/// The same of lists that are far.
fn total_far<T: Copy + Drop>(lists: &BTreeMap<u32, Vec<T>>) -> u64
    ensures { result ≡ min (total (tree.values lists.now)) 18446744073709551615 }
{
    let mut entries: u64 = 0;
    for list in lists.values() {
        entries = entries.saturating_add(list.len() as u64);
    }
    entries
}

/// Puts an entry at the end of a list. A full one grows by half and not to twice its length, since
/// the lists are much of what a program keeps.
fn add<T: Copy + Drop>(list: &mut Vec<T>, entry: T) -> Result<(), OutOfMemory>
    ensures ok { OnOk result (list.new.items ≡ list.old.items ++ entry ∷ []) }
    ensures err { OnErr result (list.new.items ≡ list.old.items) }
{
    if list.len() == list.capacity() {
        list.reserve_exact(list.len() / 2 + LEAST_GROWTH)?;
    }
    list.push_reserved(entry);
    Ok(())
}

/// Takes room from a list that has fallen below a quarter of it. It keeps room for twice as many
/// entries as it has, so that it isn't moved again at once. Where that is refused, it keeps all.
#[inline(always)]
fn give_back<T: Copy + Drop>(list: &mut Vec<T>)
    ensures { list.new.items ≡ list.old.items }
{
    if list.capacity() > LEAST_KEPT && list.len() < list.capacity() / 4 {
        list.shrink_to(list.len().saturating_mul(2).max(LEAST_KEPT));
    }
}

impl<T: Copy + Drop> Lists<T> {
    /// No lists. It takes no memory.
    pub fn new(alloc: Global) -> Self
        ensures lists { (k : ℕ) → list_at result k ≡ [] }
        ensures entries { entries_in result ≡ 0 }
    {
        Lists {
            alloc,
            near: Vec::new(alloc),
            far: BTreeMap::new(alloc),
        }
    }

    /// How many entries all lists have; `2^64 - 1` where they are more.
    pub fn entries(&self) -> u64
        ensures { result ≡ min (entries_in self.now) 18446744073709551615 }
    {
        total_near(&self.near).saturating_add(total_far(&self.far))
    }

    /// Whether the key has a list.
    #[inline]
    pub fn has_list(&self, key: u32) -> bool
        ensures value { result ≡ has_list_at self.now key }
        ensures no { result ≡ false → list_at self.now key ≡ [] }
    {
        (key as usize) < self.near.len() || self.far.contains_key(&key)
    }

    /// Takes the list of a key out, and leaves an empty one in its place, or none where there was
    /// none.
    #[inline(always)]
    pub fn take_out(&mut self, key: u32) -> Vec<T>
        ensures list { result.items ≡ list_at self.old key }
        ensures others { (k : ℕ) → list_at self.new k ≡
            (if k == key then [] else list_at self.old k) }
        ensures entries { entries_in self.new + length result.items ≡ entries_in self.old }
        ensures known { (k : ℕ) → has_list_at self.new k ≡ has_list_at self.old k }
    {
        if (key as usize) < self.near.len() {
            mem::replace(&mut self.near[key as usize], Vec::new(self.alloc))
        } else {
            self.take_far(key)
        }
    }

    /// Puts a list in the place of the empty one of a key. It gives room back where it is far
    /// shorter than it was.
    #[inline(always)]
    pub fn put_back(&mut self, key: u32, list: Vec<T>)
        requires known { IsTrue (has_list_at self.old key) }
        requires taken { list_at self.old key ≡ [] }
        ensures lists { (k : ℕ) → list_at self.new k ≡
            (if k == key then list.items else list_at self.old k) }
        ensures entries { entries_in self.new ≡ entries_in self.old + length list.items }
        ensures known { (k : ℕ) → has_list_at self.new k ≡ has_list_at self.old k }
    {
        // Room is given back in its place: a list in registers need not go to memory first.
        if (key as usize) < self.near.len() {
            self.near[key as usize] = list;
            give_back(&mut self.near[key as usize]);
        } else {
            self.put_far(key, list);
        }
    }

    /// Puts a list in the place of the empty one of a far key.
    #[cold]
    #[inline(never)]
    fn put_far(&mut self, key: u32, list: Vec<T>)
        requires far { vec_len self.old.near ≤ key }
        requires known { IsTrue (has_list_at self.old key) }
        requires taken { far_at self.old key ≡ [] }
        ensures lists { (k : ℕ) → far_at self.new k ≡
            (if k == key then list.items else far_at self.old k) }
        ensures total { total (tree.values self.new.far) ≡
            total (tree.values self.old.far) + length list.items }
        ensures near { self.new.near ≡ self.old.near }
        ensures known { (k : ℕ) → is_some (tree.get nat_cmp self.new.far k) ≡
            is_some (tree.get nat_cmp self.old.far k) }
    {
        let mut far = list;
        give_back(&mut far);
        let _ = self.far.insert(key, far);
    }

    /// Takes the list of a key out of `far`, and leaves an empty one in its place. In a call of its
    /// own it would hand the list on by memory, and then all lists that are taken out lay there.
    #[inline(always)]
    fn take_far(&mut self, key: u32) -> Vec<T>
        ensures list { result.items ≡ far_at self.old key }
        ensures others { (k : ℕ) → far_at self.new k ≡
            (if k == key then [] else far_at self.old k) }
        ensures total { total (tree.values self.new.far) + length result.items ≡
            total (tree.values self.old.far) }
        ensures near { self.new.near ≡ self.old.near }
        ensures known { (k : ℕ) → is_some (tree.get nat_cmp self.new.far k) ≡
            is_some (tree.get nat_cmp self.old.far k) }
    {
        let empty = Vec::new(self.alloc);
        match self.far.get_mut(&key) {
            Some(list) => mem::replace(list, empty),
            None => empty,
        }
    }

    /// Lengthens `near`, with the lists that `far` has there.
    fn widen(&mut self, len: usize) -> Result<(), OutOfMemory>
        requires { len ≤ 4294967296 }
        ensures same { AreSame self.old self.new }
        ensures long { OnOk result (len ≤ vec_len self.new.near) }
    {
        for key in self.near.len()..len {
            self.near.reserve(1)?;
            let list = self.take_far(key as u32);
            self.near.push_reserved(list);
        }
        Ok(())
    }

    /// Makes room for so many more entries in the lists of the first keys, by key. So lists that
    /// are filled one after the other needn't grow, and have no more room than they need.
    pub fn reserve_each(&mut self, more: &[u16]) -> Result<(), OutOfMemory>
        ensures lists { (k : ℕ) → list_at self.new k ≡ list_at self.old k }
        ensures entries { entries_in self.new ≡ entries_in self.old }
    {
        if more.len() > KEYS {
            return Err(OutOfMemory);
        }
        self.widen(more.len())?;
        for key in 0..more.len() {
            self.near[key].reserve_exact(usize::from(more[key]))?;
        }
        Ok(())
    }

    /// Gives a key a list where it has none.
    fn make_list(&mut self, key: u32) -> Result<(), OutOfMemory>
        ensures same { AreSame self.old self.new }
        ensures known { OnOk result (IsTrue (has_list_at self.new key)) }
    {
        if self.has_list(key) {
            return Ok(());
        }
        if let Some(len) = len_for(key, self.near.len(), self.far.len()) {
            return self.widen(len);
        }
        self.far.insert(key, Vec::new(self.alloc))?;
        Ok(())
    }

    /// Puts an entry at the end of the list of a key.
    #[inline(always)]
    pub fn push(&mut self, key: u32, entry: T) -> Result<(), OutOfMemory>
        ensures ok { OnOk result ((k : ℕ) → list_at self.new k ≡
            (if k == key then list_at self.old k ++ entry ∷ [] else list_at self.old k)) }
        ensures more { OnOk result (entries_in self.new ≡ entries_in self.old + 1) }
        ensures err { OnErr result ((k : ℕ) → list_at self.new k ≡ list_at self.old k) }
        ensures as_many { OnErr result (entries_in self.new ≡ entries_in self.old) }
        ensures known { (k : ℕ) → IsTrue (has_list_at self.old k) →
            IsTrue (has_list_at self.new k) }
    {
        if (key as usize) < self.near.len() {
            let list = &mut self.near[key as usize];
            if list.len() < list.capacity() {
                list.push_reserved(entry);
                return Ok(());
            }
        }
        self.push_apart(key, entry)
    }

    /// The same where the list is full, or far. Inlined, it would make a loop that puts entries
    /// into lists carry more numbers.
    #[cold]
    #[inline(never)]
    fn push_apart(&mut self, key: u32, entry: T) -> Result<(), OutOfMemory>
        ensures { Pushes self.old self.new key entry result }
    {
        self.make_list(key)?;
        let mut list = self.take_out(key);
        let added = add(&mut list, entry);
        self.put_back(key, list);
        added
    }
}
