//! When a page is made for an identifier, and what identifiers cost.
//!
//! A page has 4096 bytes of entries and 16 in other lists. Lists have room for up to twice what
//! they hold, and the directory takes up to 95 bytes for a page: up to eight lines of 8 bytes, and
//! 31 in its tree. So it costs at most 8320 in all. An identifier in the tree costs at most 31: a leaf has 192 bytes and at least 7
//! identifiers, an inner node 320 and at least 7 with 8 nodes below it.
//!
//! The first 64 pages, half a megabyte at most, are made for any identifier. 256 identifiers that
//! were bound pay for each later one, which is 33 bytes each. So beyond the first pages none costs
//! more than 64 bytes:
//!
//! - Side by side: 1024 share a page, 4 bytes each, and 9 with all room.
//! - 2 apart, or 4: 512 or 256 share a page, 17 bytes or 33 at most.
//! - 8 apart: every second page is paid for, and those before it are in the tree, 64 bytes at most.
//! - In pairs that are far apart: 255 are in the tree for one in a page, 64 bytes at most.
//! - 64 apart, or 1024: all are in the tree, 31 bytes at most.
//! - Side by side and far ones by turns: all are in the tree, for each is far from the last.
//!
//! Identifiers that were unbound are counted too, for a page stays where another one is left in it.
//! No more than 16 pages are saved up, so that many side by side don't pay for far ones that
//! follow.

/// How far an identifier for which a page is made may be past the last one that was bound.
const NEAR: u64 = 8;

/// How many identifiers pay for a page.
const PRICE: u32 = 256;

/// How many payments may be saved up.
const MOST: u32 = 16 * PRICE;

/// The identifiers bound since pages were paid for.
#[derive(Drop)]
pub(crate) struct Credit {
    saved: u32,
    last: u64,
}

impl Credit {
    /// Nothing is saved.
    pub(crate) fn new() -> Self {
        Credit { saved: 0, last: 0 }
    }

    /// Counts an identifier that is bound.
    pub(crate) fn earn(&mut self, id: u64) {
        self.last = id;
        if self.saved < MOST {
            self.saved += 1;
        }
    }

    /// The identifier that was bound last.
    pub(crate) fn last(&self) -> u64 {
        self.last
    }

    /// Pays for a page, if one is worth making for an identifier and enough is saved.
    pub(crate) fn pay(&mut self, id: u64) -> bool {
        if self.saved < PRICE || id.wrapping_sub(self.last) > NEAR {
            return false;
        }
        self.saved -= PRICE;
        true
    }
}
