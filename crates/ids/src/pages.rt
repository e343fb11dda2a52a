//! Pages: each has the slots of 1024 identifiers in a row, as entries of four bytes.
//!
//! A page in which no identifier is bound is used again, so memory follows what is bound.

ghost use Rattle.std.specs.Prelude.{◌≡◌, ◌≢◌, ℕ, ◌+◌, ◌-◌, ◌*◌, ◌<◌, ◌≤◌, length, slice_index};
ghost use Rattle.std.specs.Prelude.{slice_set, IsTrue, IfOk};
ghost use Rattle.ids.specs.Code.Ids.{place, counted_as, HasPage, IsCounted, IsEmptyPage};
ghost use Rattle.ids.specs.Code.Ids.{IsVacant, ReadsSame};

use crate::row::lengthen;
use cnf_base::OutOfMemory;
use std::alloc::Global;

/// How many identifiers in a row a page has.
pub(crate) const PAGE: u64 = 1024;

/// How many pages are made for any identifier.
const FIRST_PAGES: usize = 64;

/// The entries of all pages, one page after another. Pages count from 1, and an entry is 0 where
/// nothing is bound.
#[derive(Drop)]
pub(crate) struct Pages {
    pub(crate) entries: Vec<u32>,
    /// How many identifiers are bound in each page.
    live: Vec<u32>,
    /// The page number of each page and 1, or 0 where it has none.
    pub(crate) numbers: Vec<u64>,
    /// Pages to be used again, with room for all.
    free: Vec<u32>,
}

/// Where a page has the entry of an identifier.
#[inline]
pub(crate) fn place_in(page: u32, id: u64) -> usize
    requires { 0 < page }
    ensures { result ≡ place page id }
{
    (page as usize - 1) * PAGE as usize + (id % PAGE) as usize
}

impl Pages {
    /// No pages. It takes no memory.
    #[tactic(auto, using(crate::proofs::IdLemmas::Pages::page_steps))]
    pub(crate) fn new(alloc: Global) -> Self
        ensures { IsCounted result }
    {
        Pages {
            entries: Vec::new(alloc),
            live: Vec::new(alloc),
            numbers: Vec::new(alloc),
            free: Vec::new(alloc),
        }
    }

    #[tactic(auto, using(crate::proofs::IdLemmas::Pages::page_steps))]
    fn is_vacant(&self, page: u32) -> bool
        requires { IsCounted self.now }
        ensures { IsTrue result → IsVacant self.now page }
    {
        let i = page as usize;
        0 < i && i <= self.numbers.len() && self.numbers[i - 1] == 0 && self.live[i - 1] == 0
    }

    /// Whether a page is free, or is made for any identifier.
    pub(crate) fn has_spare(&self) -> bool {
        !self.free.is_empty() || self.numbers.len() < FIRST_PAGES
    }

    /// Makes a page and frees it.
    fn make(&mut self) -> Result<(), OutOfMemory>
        requires { IsCounted self.old }
        ensures counted { IsCounted self.new }
        ensures same { ReadsSame self.old self.new }
    {
        let Ok(page) = u32::try_from(self.numbers.len() + 1) else {
            return Err(OutOfMemory);
        };
        let len = page as usize;
        self.free.reserve(len)?;
        lengthen(&mut self.entries, len * PAGE as usize)?;
        lengthen(&mut self.live, len)?;
        self.numbers.push(0)?;
        self.free.push(page)?;
        Ok(())
    }

    /// A page that is free.
    pub(crate) fn vacant(&mut self) -> Result<u32, OutOfMemory>
        requires { IsCounted self.old }
        ensures counted { IsCounted self.new }
        ensures same { ReadsSame self.old self.new }
        ensures vacant { IfOk result (λ page. IsVacant self.new page) }
    {
        if self.free.is_empty() {
            self.make()?;
        }
        match self.free.last() {
            // Each page on the list is vacant: the test stands in for an invariant of the list.
            Some(page) if self.is_vacant(*page) => Ok(*page),
            _ => Err(OutOfMemory),
        }
    }

    /// Gives the last page that is free its page number.
    pub(crate) fn own(&mut self, page: u32, number: u64)
        requires page { HasPage self.old page }
        requires fits { number < 18446744073709551615 }
        ensures counted { IsCounted self.new }
        ensures entries { self.new.entries.items ≡ self.old.entries.items }
        ensures numbers { self.new.numbers.items ≡
            slice_set self.old.numbers.items (page - 1) (number + 1) }
    {
        self.numbers[page as usize - 1] = number + 1;
        self.free.pop();
    }

    /// Frees a page. It takes no memory.
    pub(crate) fn release(&mut self, page: u32)
        requires { HasPage self.old page }
        ensures counted { IsCounted self.new }
        ensures entries { self.new.entries.items ≡ self.old.entries.items }
        ensures numbers { self.new.numbers.items ≡ slice_set self.old.numbers.items (page - 1) 0 }
    {
        self.numbers[page as usize - 1] = 0;
        let _ = self.free.push(page);
    }

    /// Whether nothing is bound in a page.
    #[tactic(auto, using(crate::proofs::IdLemmas::Pages::page_steps))]
    pub(crate) fn is_empty(&self, page: u32) -> bool
        requires { HasPage self.now page }
        ensures { IsTrue result → IsEmptyPage self.now page }
    {
        self.live[page as usize - 1] == 0
    }

    /// Writes an entry, and how many are then bound in the page.
    #[inline]
    #[tactic(auto, using(crate::proofs::IdLemmas::Pages::page_steps))]
    fn write(&mut self, page: u32, id: u64, entry: u32, count: u32)
        requires page { HasPage self.old page }
        requires count { count + counted_as (slice_index self.old.entries.items (place page id)) ≡
            slice_index self.old.live.items (page - 1) + counted_as entry }
        ensures counted { IsCounted self.new }
        ensures entries { self.new.entries.items ≡
            slice_set self.old.entries.items (place page id) entry }
        ensures numbers { self.new.numbers.items ≡ self.old.numbers.items }
    {
        self.entries[place_in(page, id)] = entry;
        self.live[page as usize - 1] = count;
    }

    /// Writes an entry where there is none.
    pub(crate) fn fill(&mut self, page: u32, id: u64, entry: u32)
        requires page { HasPage self.old page }
        requires empty { slice_index self.old.entries.items (place page id) ≡ 0 }
        requires bound { 0 < entry }
        ensures counted { IsCounted self.new }
        ensures entries { self.new.entries.items ≡
            slice_set self.old.entries.items (place page id) entry }
        ensures numbers { self.new.numbers.items ≡ self.old.numbers.items }
    {
        let count = self.live[page as usize - 1] + 1;
        self.write(page, id, entry, count);
    }

    /// Takes out an entry.
    pub(crate) fn clear(&mut self, page: u32, id: u64)
        requires page { HasPage self.old page }
        requires bound { slice_index self.old.entries.items (place page id) ≢ 0 }
        ensures counted { IsCounted self.new }
        ensures entries { self.new.entries.items ≡
            slice_set self.old.entries.items (place page id) 0 }
        ensures numbers { self.new.numbers.items ≡ self.old.numbers.items }
    {
        let count = self.live[page as usize - 1] - 1;
        self.write(page, id, 0, count);
    }
}
