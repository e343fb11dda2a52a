//! The names that were looked up last, of those that are not in an array.
//!
//! A look-up in a tree takes hundreds of instructions, and here some thirty. A name has one place,
//! where only the two that came last are, so no choice of names makes this long: where three names
//! take turns at one place, the tree is asked each time.

ghost use Rattle.std.specs.Prelude.{◌≡◌, ◌≢◌, ℕ, OnOk};
ghost use Rattle.numbering.specs.Code.Recents.{AreRecent};

use cnf_base::OutOfMemory;
use std::alloc::Global;

/// A name and its number; the name 0 where there is none.
#[derive(Clone, Copy, Drop)]
struct Entry {
    name: u32,
    number: u32,
}

/// The two names that came last to a place.
#[derive(Clone, Copy, Drop)]
struct Pair {
    last: Entry,
    before: Entry,
}

/// Names that were looked up last, with their numbers.
#[derive(Drop)]
pub(crate) struct Recents {
    /// As many as a power of two, or none.
    pairs: Vec<Pair>,
    /// What is left of 64 bits that are shifted by so many is a place.
    shift: u32,
    /// How many names there are to look up.
    count: usize,
}

const NONE: Entry = Entry { name: 0, number: 0 };

const BLANK: Pair = Pair {
    last: NONE,
    before: NONE,
};

/// How many places there are at least, once there are any.
const LEAST: usize = 256;

/// How many places there are at most, of 16 bytes each.
const MOST: usize = 524288;

/// The place of a name. The odd constant, 2 to the power of 64 by the golden ratio, lays names that
/// are in rows apart.
#[inline(always)]
fn place_of(name: u32, shift: u32) -> usize {
    u64::from(name)
        .wrapping_mul(0x9E37_79B9_7F4A_7C15)
        .wrapping_shr(shift) as usize
}

impl Recents {
    /// No names. It takes no memory.
    pub(crate) fn new(alloc: Global) -> Self
        ensures { (number : ℕ → ℕ) → AreRecent number result }
    {
        Recents {
            pairs: Vec::new(alloc),
            shift: 0,
            count: 0,
        }
    }

    /// The number of the name, or 0 where the name is not here.
    #[inline(always)]
    pub(crate) fn get(&self, name: u32) -> u32
        ensures { (number : ℕ → ℕ) → AreRecent number self.now → name ≢ 0 → result ≢ 0 →
            number name ≡ result }
    {
        match self.pairs.as_slice().get(place_of(name, self.shift)) {
            Some(pair) if pair.last.name == name => pair.last.number,
            Some(pair) if pair.before.name == name => pair.before.number,
            _ => 0,
        }
    }

    /// Notes the number of the name, in place of what came before the last one.
    pub(crate) fn note(&mut self, name: u32, number: u32)
        ensures { (at : ℕ → ℕ) → AreRecent at self.old → number ≢ 0 → at name ≡ number →
            AreRecent at self.new }
    {
        let place = place_of(name, self.shift);
        if place < self.pairs.len() {
            self.pairs[place] = Pair {
                last: Entry { name, number },
                before: self.pairs[place].last,
            };
        }
    }

    /// Makes room for one name more. Where the places become too few, there are twice as many from
    /// then on, and none of them has a name: each is asked for once more.
    pub(crate) fn reserve(&mut self) -> Result<(), OutOfMemory>
        ensures { (number : ℕ → ℕ) → AreRecent number self.old → AreRecent number self.new }
    {
        self.count = self.count.saturating_add(1);
        let len = self.pairs.len();
        if self.count.saturating_mul(2) > len && len < MOST {
            self.resize(len.saturating_mul(2).max(LEAST))?;
        }
        Ok(())
    }

    fn resize(&mut self, len: usize) -> Result<(), OutOfMemory>
        ensures { (number : ℕ → ℕ) → AreRecent number self.new }
    {
        self.pairs.clear();
        self.pairs.resize(len, BLANK)?;
        self.shift = len.leading_zeros() + 1;
        Ok(())
    }
}
