//! A watch list of which the clauses are visited.

ghost use Rattle.std.specs.Prelude.{◌≡◌, ◌+◌, ◌<◌, ◌≤◌, ◌++◌, take, drop, length, slice_get};
ghost use Rattle.std.specs.Prelude.{slice_set};
ghost use Rattle.std.specs.List.{remove};

use crate::watcher::Watcher;
use std::marker::Model;

/// A watch list of which the clauses are visited one after the other. An entry is kept or taken
/// out, and the order stays.
///
/// Contracts see its entries, and how many of them were visited and kept.
#[derive(Drop)]
pub struct Cursor {
    list: Vec<Watcher>,
    /// The entries before this place are kept.
    kept: usize,
    /// Those from this place on are yet to be visited.
    next: usize,
}

/// Takes out what stands between two places, and tells how many entries are left: these come
/// first. Few visits end early, so that a gap is left: inlined, it would make the loop over the
/// entries carry more numbers. It is given the entries and not the list, which would have to lie
/// in memory on all other ways too.
#[inline(never)]
fn close_gap(entries: &mut [Watcher], from: usize, to: usize) -> usize
    requires order { from ≤ to }
    requires inside { to ≤ length entries.old }
    ensures inside { result ≤ length entries.new }
    ensures left { take result entries.new ≡ take from entries.old ++ drop to entries.old }
{
    if from < to {
        entries.copy_within(to.., from);
    }
    from + (entries.len() - to)
}

impl Model for Cursor {
    ghost use Rattle.std.specs.Prelude.{◌≤◌, ◌++◌, take, drop, length};
    ghost use Rattle.watch_lists.specs.Cursor.{CursorState};

    ghost Value = { CursorState };

    // Each field has to be named here. What stands between the two places was taken out.
    ghost view = { λ record { list = list; kept = kept; next = next }. record {
      entries = take kept list.items ++ drop next list.items;
      visited = kept;
    } };

    ghost invariant = { λ c. (c.kept ≤ c.next) × (c.next ≤ length c.list.items) };
}

impl Cursor {
    /// At the front of a list.
    #[inline(always)]
    pub fn over(list: Vec<Watcher>) -> Self
        ensures entries { result.entries ≡ list.items }
        ensures visited { result.visited ≡ 0 }
    {
        Cursor {
            list,
            kept: 0,
            next: 0,
        }
    }

    /// The next entry, if there is one.
    #[inline(always)]
    pub fn next(&self) -> Option<Watcher>
        ensures { result ≡ slice_get self.now.entries self.now.visited }
    {
        if self.next < self.list.len() {
            Some(self.list[self.next])
        } else {
            None
        }
    }

    /// Puts this in the place of the next entry, and keeps it.
    #[inline(always)]
    #[tactic(auto, using(crate::proofs::WatchListsLemmas::Cursor::cursor_steps))]
    pub fn keep(&mut self, entry: Watcher)
        requires { self.old.visited < length self.old.entries }
        ensures entries { self.new.entries ≡
            slice_set self.old.entries self.old.visited entry }
        ensures visited { self.new.visited ≡ self.old.visited + 1 }
    {
        self.list[self.kept] = entry;
        self.kept += 1;
        self.next += 1;
    }

    /// Takes the next entry out.
    #[inline(always)]
    #[tactic(auto, using(crate::proofs::WatchListsLemmas::Cursor::cursor_steps))]
    pub fn take_out(&mut self)
        requires { self.old.visited < length self.old.entries }
        ensures entries { self.new.entries ≡ remove self.old.entries self.old.visited }
        ensures visited { self.new.visited ≡ self.old.visited }
    {
        self.next += 1; // into_list closes the gap
    }

    /// The list.
    #[inline(always)]
    pub fn into_list(self) -> Vec<Watcher>
        ensures { result.items ≡ self.entries }
    {
        let mut list = self.list;
        let mut left = self.kept;
        if self.next < list.len() {
            left = close_gap(list.as_mut_slice(), self.kept, self.next);
        }
        list.truncate(left);
        list
    }
}
