//! The directory: for each row of 1024 identifiers, the page that has their entries.
//!
//! It has the pages that are there now, however many rows were met: each in a line for its row, or
//! in a tree where another row has that line. There are four lines for a page at least.

ghost use Rattle.std.specs.Prelude.{◌≡◌, ℕ, ◌<◌, ◌==◌, if◌then◌else◌, IfOk, OnOk, OnErr};

use crate::cache::Cache;
use crate::far::{far_number, put_far, take_far};
use cnf_base::OutOfMemory;
use std::alloc::Global;
use std::collections::BTreeMap;

/// Which page each page number has. Pages count from 1, and 0 is none.
///
/// A page in `cache` hides one in `far`, where no choice of identifiers makes a look-up long.
#[derive(Drop)]
pub(crate) struct Directory {
    cache: Cache,
    far: BTreeMap<u64, u32>,
    /// How many pages there are.
    held: usize,
}

#[tactic(auto, unfolding(crate::specs::Code::Ids::page_at))]
impl Directory {
    ghost use Rattle.ids.specs.Code.Ids.{page_at};

    /// No pages.
    pub(crate) fn new(alloc: Global) -> Result<Self, OutOfMemory>
        ensures { IfOk result (λ directory. (k : ℕ) → page_at directory k ≡ 0) }
    {
        let cache = Cache::new(alloc)?;
        Ok(Directory {
            cache,
            far: BTreeMap::new(alloc),
            held: 0,
        })
    }

    /// The page of a page number.
    #[inline]
    pub(crate) fn page(&self, number: u64) -> u32
        ensures { result ≡ page_at self.now number }
    {
        let page = self.cache.get(number);
        if page != 0 {
            return page;
        }
        far_number(&self.far, number)
    }

    /// Makes room in the lines for one more page.
    fn lengthen(&mut self) -> Result<(), OutOfMemory>
        ensures { (k : ℕ) → page_at self.new k ≡ page_at self.old k }
    {
        if let Some(longer) = self.cache.longer(self.held.saturating_add(1))? {
            self.cache = longer;
        }
        Ok(())
    }

    /// Puts in the page of a page number that has none.
    pub(crate) fn put(&mut self, number: u64, page: u32) -> Result<(), OutOfMemory>
        requires page { 0 < page }
        requires none { page_at self.old number ≡ 0 }
        ensures ok { OnOk result ((k : ℕ) → page_at self.new k ≡
            (if k == number then page else page_at self.old k)) }
        ensures err { OnErr result ((k : ℕ) → page_at self.new k ≡ page_at self.old k) }
    {
        self.lengthen()?;
        match u32::try_from(number) {
            Ok(low) if self.cache.put(low, page) => (),
            _ => put_far(&mut self.far, number, page)?,
        }
        self.held = self.held.saturating_add(1);
        Ok(())
    }

    /// Takes out the page of a number. It takes no memory.
    pub(crate) fn remove(&mut self, number: u64)
        ensures { (k : ℕ) → page_at self.new k ≡
            (if k == number then 0 else page_at self.old k) }
    {
        self.cache.clear(number);
        take_far(&mut self.far, number);
        self.held = self.held.saturating_sub(1);
    }
}
