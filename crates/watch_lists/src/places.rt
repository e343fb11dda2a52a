//! Where the entries of long lists may stand.
//!
//! All that is noted is a hint: whoever reads it looks whether the entry stands there. So visits,
//! which move entries, note nothing.
//!
//! Solvers delete clauses in the order in which they have them, or in the opposite one, so the
//! place is noted where the last entry was taken out. A long list in which searches passed over
//! many entries gets a table of places besides, and another one where visits have moved too many.
//! To make one costs a few times what the searches did that call for it, and a visit of the list
//! costs more than a search, so whatever the order of deletions, they cost no more than the rest.
//! A table has eight bytes for each entry, until three in four of these are gone.

ghost use Rattle.std.specs.Prelude.{◌≡◌, ◌<◌, length, IfSome};
ghost use Rattle.watch_lists.specs.Code.Lists.{code_at};

use crate::place_table::PlaceTable;
use crate::watcher::Watcher;
use cnf_base::OutOfMemory;
use std::alloc::Global;
use std::collections::BTreeMap;

/// An entry that was found.
#[derive(Clone, Copy)]
pub(crate) struct Found {
    pub(crate) place: usize,
    /// How many entries were passed over, but for a few.
    pub(crate) passed: usize,
}

/// How many entries a list has at least that gets a table.
pub(crate) const LONG: usize = 1000;

/// Places are noted by the remainder of the list's number by this. Lists that share one cost each
/// other searches alone.
const GROUPS: usize = 128;

/// How often as many entries as a list has are passed over before it gets a table. To make one
/// costs some ten times what it takes to pass over them.
const SEARCHES: usize = 8;

/// What is noted of the lists of some literals.
#[derive(Clone, Copy)]
struct Noted {
    /// Where the last entry was taken out.
    place: usize,
    /// How many entries were passed over in searches that no table was made for yet.
    passed: usize,
}

/// Where the entries of lists may stand. The lists have numbers.
#[derive(Drop)]
pub(crate) struct Places {
    noted: [Noted; GROUPS],
    tables: BTreeMap<u32, PlaceTable>,
    /// The list that is to get a table.
    wanted: Option<u32>,
}

impl Places {
    /// Nothing is noted.
    pub(crate) fn new(alloc: Global) -> Self {
        Places {
            noted: [Noted {
                place: 0,
                passed: 0,
            }; GROUPS],
            tables: BTreeMap::new(alloc),
            wanted: None,
        }
    }

    /// Where the last entry was taken out of the list, or of one that shares its remainder.
    #[inline(always)]
    pub(crate) fn last(&self, number: u32) -> usize {
        self.noted[number as usize % GROUPS].place
    }

    /// The place of an entry with this code in the list, where its table has it.
    pub(crate) fn place(&self, number: u32, list: &[Watcher], code: u32) -> Option<usize>
        ensures inside { IfSome result (λ place. place < length list.now) }
        ensures there { IfSome result (λ place. code_at list.now place ≡ code) }
    {
        self.tables.get(&number)?.place(list, code)
    }

    /// Takes note of an entry that was found, and taken out: the last one has come to its place.
    pub(crate) fn note(&mut self, number: u32, list: &[Watcher], found: Found) {
        let noted = &mut self.noted[number as usize % GROUPS];
        noted.place = found.place;
        if list.len() >= LONG && found.passed > 0 {
            noted.passed = noted.passed.saturating_add(found.passed);
            if noted.passed / SEARCHES >= list.len() {
                self.wanted = Some(number);
            }
        }
        if !self.tables.is_empty() {
            self.note_moved(number, list, found.place);
        }
    }

    /// Has the table of the list note that its last entry has come to this place. One that is far
    /// too large by now is given back.
    #[inline(never)]
    fn note_moved(&mut self, number: u32, list: &[Watcher], place: usize) {
        let Some(table) = self.tables.get_mut(&number) else {
            return;
        };
        if list.len() < LONG / 2 || table.is_too_large(list.len()) {
            self.tables.remove(&number);
        } else if place < list.len() {
            table.put(list, place);
        }
    }

    /// The list that is to get a table. It is told once.
    #[inline(always)]
    pub(crate) fn take_wanted(&mut self) -> Option<u32> {
        self.wanted.take()
    }

    /// Makes a table for the list. Entries of it are hashed by the seed.
    ///
    /// # Errors
    ///
    /// Where memory runs out. The list has no table then.
    pub(crate) fn index(
        &mut self,
        alloc: Global,
        seed: u64,
        number: u32,
        list: &[Watcher],
    ) -> Result<(), OutOfMemory> {
        let noted = &mut self.noted[number as usize % GROUPS];
        noted.passed = noted
            .passed
            .saturating_sub(list.len().saturating_mul(SEARCHES));
        self.tables.remove(&number);
        let table = PlaceTable::of(alloc, seed, list)?;
        self.tables.insert(number, table)?;
        Ok(())
    }
}
