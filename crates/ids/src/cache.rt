//! Lines for page numbers, as a direct-mapped cache has them.
//!
//! Each number has one line, by its last bits, and numbers in a row have different ones. The first
//! number that takes a line keeps it until it is cleared.

ghost use Rattle.std.specs.Prelude.{◌≡◌, ℕ, ◌<◌, ◌==◌, length, if◌then◌else◌, true, false};
ghost use Rattle.std.specs.Prelude.{IfOk, IfSome};

use cnf_base::OutOfMemory;
use std::alloc::Global;

/// A page number and its page, 0 where the line is free.
#[derive(Clone, Copy)]
pub(crate) struct Line {
    number: u32,
    page: u32,
}

impl Line {
    ghost use Rattle.ids.specs.Code.Cache.{page_of};

    /// The page of a number, 0 where it isn't in the line.
    #[inline(always)]
    fn page_of(self, number: u64) -> u32
        ensures { result ≡ page_of self number }
    {
        if u64::from(self.number) == number {
            self.page
        } else {
            0
        }
    }
}

/// A line that is free.
const FREE: Line = Line { number: 0, page: 0 };

/// How many lines there are at least.
const LEAST: usize = 64;

/// How many lines there are for a page at least. Past the first ones there are at most twice as
/// many.
const SHARE: usize = 4;

/// The pages of some page numbers below 2^32. Others are never in it, and the directory keeps what
/// isn't.
#[derive(Drop)]
pub(crate) struct Cache {
    alloc: Global,
    lines: Vec<Line>,
    /// The bits of a number that say which line it has.
    mask: usize,
    ghost each_has_one: { mask < length lines.items },
}

impl Cache {
    ghost use Rattle.ids.specs.Code.Cache.{cached_at};

    /// A cache of so many lines, a power of two, all of them free.
    fn with_len(alloc: Global, len: usize) -> Result<Self, OutOfMemory>
        requires { 0 < len }
        ensures { IfOk result (λ cache. (k : ℕ) → cached_at cache k ≡ 0) }
    {
        let lines = vec![in alloc; FREE; len]?;
        Ok(Cache {
            alloc,
            lines,
            mask: len - 1,
        })
    }

    /// A cache that is empty.
    pub(crate) fn new(alloc: Global) -> Result<Self, OutOfMemory>
        ensures { IfOk result (λ cache. (k : ℕ) → cached_at cache k ≡ 0) }
    {
        Cache::with_len(alloc, LEAST)
    }

    /// The same in more lines, where there are too few for so many pages.
    pub(crate) fn longer(&self, pages: usize) -> Result<Option<Self>, OutOfMemory>
        ensures { IfOk result (λ longer. IfSome longer (λ cache. (k : ℕ) →
            cached_at cache k ≡ cached_at self.now k)) }
    {
        if pages <= self.lines.len() / SHARE {
            return Ok(None);
        }
        let mut longer = Cache::with_len(self.alloc, self.lines.len().saturating_mul(2))?;
        for i in 0..self.lines.len() {
            let line = self.lines[i];
            let is_taken = line.page != 0 && line.number as usize & self.mask == i;
            // Numbers that would have one line there have one here: the test stands in for a proof.
            if is_taken && !longer.put(line.number, line.page) {
                return Ok(None);
            }
        }
        Ok(Some(longer))
    }

    /// The page of a number, 0 where it isn't in the cache.
    #[inline(always)]
    pub(crate) fn get(&self, number: u64) -> u32
        ensures { result ≡ cached_at self.now number }
    {
        self.lines[number as usize & self.mask].page_of(number)
    }

    /// Puts in the page of a number, where no other number has its line, and tells whether it did.
    pub(crate) fn put(&mut self, number: u32, page: u32) -> bool
        ensures put { result ≡ true → (k : ℕ) → cached_at self.new k ≡
            (if k == number then page else cached_at self.old k) }
        ensures not_put { result ≡ false → (k : ℕ) → cached_at self.new k ≡ cached_at self.old k }
    {
        let place = number as usize & self.mask;
        let line = self.lines[place];
        if line.page == 0 || line.number == number {
            self.lines[place] = Line { number, page };
            return true;
        }
        false
    }

    /// Takes out a number.
    pub(crate) fn clear(&mut self, number: u64)
        ensures { (k : ℕ) → cached_at self.new k ≡
            (if k == number then 0 else cached_at self.old k) }
    {
        let place = number as usize & self.mask;
        if u64::from(self.lines[place].number) == number {
            self.lines[place] = FREE;
        }
    }
}
