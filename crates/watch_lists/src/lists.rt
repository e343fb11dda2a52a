//! Watch lists: by literal the entries of the clauses that watch it.
//!
//! To remove a clause takes no memory: its two lists are searched for its entries. So a table of
//! places, which shortens the searches of a long list, is made when there is leave to take memory.

ghost use Rattle.std.specs.Prelude.{◌≡◌, ℕ, ◌+◌, ◌==◌, ◌&&◌, ◌++◌, ◌∷◌, [], length, min};
ghost use Rattle.std.specs.Prelude.{if◌then◌else◌, IsTrue, OnOk, OnErr, true, false, ◌≢◌, ◌<◌, ◌≤◌};
ghost use Rattle.cnf_base.specs.Literals.{Literal, Clause, has};
ghost use Rattle.watch_lists.specs.Lists.{entries_in, entries_of, fits, has_list_at};
ghost use Rattle.watch_lists.specs.Lists.{list_at, marked_entries, unfit_entries};

use crate::places::Places;
use crate::taken::take_off;
use crate::watcher::Watcher;
use cnf_base::{Lit, OutOfMemory};
use std::alloc::Global;
use tables::{Lists, key};

/// By literal a list of entries.
#[derive(Drop)]
pub struct WatchLists {
    lists: Lists<Watcher>,
    /// Where their entries may stand.
    places: Places,
}

impl WatchLists {
    /// No lists.
    pub fn new(alloc: Global) -> Self
        ensures lists { (l : Literal) → list_at result l ≡ [] }
        ensures entries { entries_in result ≡ 0 }
    {
        WatchLists {
            lists: Lists::new(alloc),
            places: Places::new(alloc),
        }
    }

    /// How many entries all lists have; `2^64 - 1` where they are more.
    pub fn entries(&self) -> u64
        ensures { result ≡ min (entries_in self.now) 18446744073709551615 }
    {
        self.lists.entries()
    }

    /// Puts an entry at the end of the list of a literal.
    #[inline(always)]
    pub fn push(&mut self, l: Lit, watcher: Watcher) -> Result<(), OutOfMemory>
        ensures ok { OnOk result ((k : Literal) → list_at self.new k ≡
            (if k == l then list_at self.old k ++ watcher ∷ [] else list_at self.old k)) }
        ensures more { OnOk result (entries_in self.new ≡ entries_in self.old + 1) }
        ensures err { OnErr result ((k : Literal) → list_at self.new k ≡ list_at self.old k) }
        ensures as_many { OnErr result (entries_in self.new ≡ entries_in self.old) }
        ensures known { (k : Literal) → IsTrue (has_list_at self.old k) →
            IsTrue (has_list_at self.new k) }
    {
        self.lists.push(key(l), watcher)
    }

    /// Makes room for so many more entries in the lists of the first literals, by number.
    pub fn reserve_each(&mut self, more: &[u16]) -> Result<(), OutOfMemory>
        ensures lists { (l : Literal) → list_at self.new l ≡ list_at self.old l }
        ensures entries { entries_in self.new ≡ entries_in self.old }
    {
        self.lists.reserve_each(more)
    }

    /// Whether the literal has a list.
    #[inline]
    pub fn has_list(&self, l: Lit) -> bool
        ensures yes { result ≡ true → IsTrue (has_list_at self.now l) }
        ensures no { result ≡ false → list_at self.now l ≡ [] }
    {
        self.lists.has_list(key(l))
    }

    /// Takes the list of a literal out, and leaves an empty one in its place.
    #[inline(always)]
    pub fn take_out(&mut self, l: Lit) -> Vec<Watcher>
        requires known { IsTrue (has_list_at self.old l) }
        ensures list { result.items ≡ list_at self.old l }
        ensures others { (k : Literal) → list_at self.new k ≡
            (if k == l then [] else list_at self.old k) }
        ensures entries { entries_in self.new + length result.items ≡ entries_in self.old }
        ensures known { (k : Literal) → has_list_at self.new k ≡ has_list_at self.old k }
    {
        self.lists.take_out(key(l))
    }

    /// Puts a list in the place of the empty one of a literal.
    #[inline(always)]
    pub fn put_back(&mut self, l: Lit, list: Vec<Watcher>)
        requires known { IsTrue (has_list_at self.old l) }
        requires taken { list_at self.old l ≡ [] }
        ensures lists { (k : Literal) → list_at self.new k ≡
            (if k == l then list.items else list_at self.old k) }
        ensures entries { entries_in self.new ≡ entries_in self.old + length list.items }
        ensures known { (k : Literal) → has_list_at self.new k ≡ has_list_at self.old k }
    {
        self.lists.put_back(key(l), list);
    }

    /// Takes the entry of a slot with this mark out of the list of a literal, which has one. It
    /// takes no memory.
    pub fn take_off(&mut self, l: Lit, slot: u32, is_binary: bool)
        requires low { slot < 2147483648 }
        requires there { 0 < marked_entries slot is_binary (list_at self.old l) }
        ensures others { (k : Literal) → k ≢ l → list_at self.new k ≡ list_at self.old k }
        ensures times { (s : ℕ) → entries_of s (list_at self.new l) +
            (if s == slot then 1 else 0) ≡ entries_of s (list_at self.old l) }
        ensures unfit { (k s : ℕ) (c : Clause) →
            unfit_entries s c k (list_at self.new k) ≤ unfit_entries s c k (list_at self.old k) }
        ensures entries { entries_in self.new + 1 ≡ entries_in self.old }
    {
        let number = key(l);
        let mut watchers = self.lists.take_out(number);
        take_off(&mut watchers, slot, is_binary, &mut self.places, number);
        self.lists.put_back(number, watchers);
    }

    /// Makes a table of places for a list in which too many entries were passed over in searches,
    /// if there is one, so that they are taken off sooner. It hashes by the seed, a number that
    /// whoever chooses the clauses shouldn't know.
    ///
    /// # Errors
    ///
    /// Where memory runs out. Entries are taken off all the same.
    #[inline]
    pub fn index_places(&mut self, alloc: Global, seed: u64) -> Result<(), OutOfMemory>
        ensures lists { (l : Literal) → list_at self.new l ≡ list_at self.old l }
        ensures entries { entries_in self.new ≡ entries_in self.old }
    {
        match self.places.take_wanted() {
            Some(number) => self.index_list(number, alloc, seed),
            None => Ok(()),
        }
    }

    /// Makes a table of places for the list with this number.
    #[cold]
    #[inline(never)]
    fn index_list(&mut self, number: u32, alloc: Global, seed: u64) -> Result<(), OutOfMemory>
        ensures lists { (l : Literal) → list_at self.new l ≡ list_at self.old l }
        ensures entries { entries_in self.new ≡ entries_in self.old }
    {
        if !self.lists.has_list(number) {
            return Ok(());
        }
        let list = self.lists.take_out(number);
        let indexed = self.places.index(alloc, seed, number, &list);
        self.lists.put_back(number, list);
        indexed
    }

    /// Puts the slot of a clause into the lists of two literals of it, or into none where memory is
    /// refused. The entries say whether it is binary.
    pub fn watch(
        &mut self,
        first: Lit,
        second: Lit,
        slot: u32,
        is_binary: bool,
    ) -> Result<(), OutOfMemory>
        requires low { slot < 2147483648 }
        ensures ok { OnOk result ((k s : ℕ) → entries_of s (list_at self.new k) ≡
            entries_of s (list_at self.old k) + (if k == first && s == slot then 1 else 0)
            + (if k == second && s == slot then 1 else 0)) }
        ensures unfit { (k s : ℕ) (c : Clause) →
            (s ≡ slot → IsTrue (fits c first second is_binary)
            × IsTrue (fits c second first is_binary)) →
            unfit_entries s c k (list_at self.new k) ≤ unfit_entries s c k (list_at self.old k) }
        ensures more { OnOk result (entries_in self.new ≡ entries_in self.old + 2) }
        ensures err { OnErr result ((k s : ℕ) → entries_of s (list_at self.new k) ≡
            entries_of s (list_at self.old k)) }
        ensures as_many { OnErr result (entries_in self.new ≡ entries_in self.old) }
    {
        self.push(first, Watcher::new(slot, second, is_binary))?;
        let watcher = Watcher::new(slot, first, is_binary);
        if self.push(second, watcher).is_err() {
            self.take_off(first, slot, is_binary);
            return Err(OutOfMemory);
        }
        Ok(())
    }
}
