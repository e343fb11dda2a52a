//! By the codes of the entries of one list the places where they may stand.

ghost use Rattle.std.specs.Prelude.{◌≡◌, ◌<◌, length, vec_len, IfSome};
ghost use Rattle.watch_lists.specs.Code.Lists.{code_at};

use crate::watcher::Watcher;
use cnf_base::OutOfMemory;
use std::alloc::Global;

/// A hash table of places, in which the next cells are tried where one is taken. Nothing is taken
/// out of it: a cell is free again as soon as another entry stands at its place.
#[derive(Drop)]
pub(crate) struct PlaceTable {
    seed: u64,
    /// By hash, and behind as many as are tried.
    cells: Vec<u32>,
}

/// A cell without a place.
const NONE: u32 = 4294967295;

/// How many cells are tried.
const TRIED: usize = 64;

/// How many cells there are for each entry.
const EACH: usize = 2;

/// How many times more a table that is too large has.
const TOO_MANY: usize = 4;

impl PlaceTable {
    /// A table of the places of all entries.
    ///
    /// # Errors
    ///
    /// Where memory runs out.
    pub(crate) fn of(alloc: Global, seed: u64, list: &[Watcher]) -> Result<Self, OutOfMemory> {
        let len = list.len().saturating_mul(EACH).saturating_add(TRIED);
        let cells = vec![in alloc; NONE; len]?;
        let mut table = PlaceTable { seed, cells };
        for place in 0..list.len() {
            table.put(list, place);
        }
        Ok(table)
    }

    /// The first cell to try for a code.
    #[inline(always)]
    fn first_cell(&self, code: u32) -> usize {
        let x = (u64::from(code) ^ self.seed).wrapping_mul(0x9E37_79B9_7F4A_7C15);
        let hash = (x ^ (x >> 32)).wrapping_mul(0xBF58_476D_1CE4_E5B9) >> 32;
        let hashes = self.cells.len().saturating_sub(TRIED) as u64;
        (hash.wrapping_mul(hashes) >> 32) as usize
    }

    /// Whether there are far more cells than a list of this length needs.
    pub(crate) fn is_too_large(&self, len: usize) -> bool {
        self.cells.len() / (EACH * TOO_MANY) > len
    }

    /// The place of an entry with this code in the list, where one is noted at which it stands.
    pub(crate) fn place(&self, list: &[Watcher], code: u32) -> Option<usize>
        ensures inside { IfSome result (λ place. place < length list.now) }
        ensures there { IfSome result (λ place. code_at list.now place ≡ code) }
    {
        let first = self.first_cell(code);
        for cell in first..first.saturating_add(TRIED).min(self.cells.len()) {
            let place = self.cells[cell] as usize;
            if place < list.len() && list[place].code() == code {
                return Some(place);
            }
            if self.cells[cell] == NONE {
                return None;
            }
        }
        None
    }

    /// Whether the cell has no place, or one of an entry that isn't sought in it.
    #[inline(always)]
    fn is_free(&self, list: &[Watcher], cell: usize) -> bool
        requires { cell < vec_len self.now.cells }
    {
        let place = self.cells[cell] as usize;
        if place >= list.len() {
            return true;
        }
        let first = self.first_cell(list[place].code());
        cell < first || cell - first >= TRIED
    }

    /// Notes where in the list an entry stands, unless too many cells are taken.
    pub(crate) fn put(&mut self, list: &[Watcher], place: usize)
        requires { place < length list.now }
    {
        let Ok(number) = u32::try_from(place) else {
            return;
        };
        let first = self.first_cell(list[place].code());
        for cell in first..first.saturating_add(TRIED).min(self.cells.len()) {
            if self.is_free(list, cell) {
                self.cells[cell] = number;
                return;
            }
        }
    }
}
