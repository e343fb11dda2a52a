//! The visits of root-level literals, each with how many literals were true when it began.
//!
//! A clause that was visited when more literals were true may have been left alone because of one
//! that is true no more. So after a cut the visits are made again, from the last that began with no
//! more literals than are left. Where there is none, nothing is kept and all is found again: visits
//! that began while all of these literals were true would tell nothing of the next cut either.
//!
//! A clause that watches a literal which is false when it is added is doubtful: where literals are
//! cut it may need a visit that was over before. It is noted, and looked at after each cut, as unit
//! clauses are. The looks since all visits were forgotten are no more than the literals that are
//! true, or few: then all visits are made again, which takes as long and leaves no doubt.

ghost use Rattle.std.specs.Prelude.{◌≡◌, ◌≢◌, ℕ, ◌<◌, ◌≤◌, ◌++◌, ◌∷◌, [], true, IsTrue, OnOk};
ghost use Rattle.std.specs.List.{remove};
ghost use Rattle.cnf_base.specs.Literals.{has};
ghost use Rattle.root_literals.specs.History.{IsNoted, IsRewound, visits};

use cnf_base::OutOfMemory;
use std::alloc::Global;

/// The visits of the literals that are kept, in the order of these.
///
/// Where a literal is lost those before it stay true. But a clause that was visited while it was
/// true may have been let alone because of it, or of one after it: so for each visit it is noted
/// how many literals were true when it began.
#[derive(Drop)]
pub struct History {
    /// For each visit how many literals were true then.
    pub visited: Vec<usize>,
    /// Of a cut to so many literals, or to fewer, it says nothing.
    pub floor: usize,
    /// The slots of the clauses that are doubtful, of which it says nothing.
    pub doubts: Vec<u32>,
    /// How many looks at them the cuts have led to.
    looks: usize,
}

/// So many looks at doubtful clauses are taken in any case.
const FREE_LOOKS: usize = 64;

impl History {
    /// No visit was made.
    pub(crate) fn new(alloc: Global) -> Self
        ensures { result.visited.items ≡ [] }
    {
        History {
            visited: Vec::new(alloc),
            floor: 0,
            doubts: Vec::new(alloc),
            looks: 0,
        }
    }

    /// How many visits were made.
    pub fn len(&self) -> usize
        ensures { result ≡ visits self.now }
    {
        self.visited.len()
    }

    /// The next visit begins, where so many literals are true.
    pub fn begin(&mut self, trues: usize) -> Result<(), OutOfMemory>
        ensures visited { OnOk result (self.new.visited.items ≡
            self.old.visited.items ++ trues ∷ []) }
        ensures floor { OnOk result (self.new.floor ≡ self.old.floor) }
        ensures doubts { OnOk result (self.new.doubts ≡ self.old.doubts) }
    {
        self.visited.push(trues)?;
        Ok(())
    }

    /// A clause was added into the slot where so many literals were true. It is doubtful where it
    /// watches a literal that is false, since that may have become so at any place. Where there is
    /// no room to note it, the next cut forgets all visits.
    pub(crate) fn enter(&mut self, is_doubtful: bool, slot: u32, trues: usize)
        ensures visited { self.new.visited ≡ self.old.visited }
        ensures noted { IsNoted self.old self.new is_doubtful slot trues }
    {
        if !is_doubtful || self.visited.is_empty() {
            return;
        }
        let is_full = self.doubts.len() >= trues.saturating_add(FREE_LOOKS);
        if is_full || self.doubts.push(slot).is_err() {
            self.floor = trues;
        }
    }

    /// The clause in the slot is to be removed. It takes no memory.
    pub(crate) fn leave(&mut self, slot: usize)
        ensures visited { self.new.visited ≡ self.old.visited }
        ensures floor { self.new.floor ≡ self.old.floor }
        ensures others { (s : ℕ) → s ≢ slot → has self.new.doubts.items s ≡
            has self.old.doubts.items s }
    {
        let is_last = match self.doubts.last() {
            Some(last) => *last as usize == slot,
            None => false,
        };
        if is_last {
            self.doubts.pop();
        }
    }

    /// No visit was made. It takes no memory.
    fn forget(&mut self)
        ensures { self.new.visited.items ≡ [] }
    {
        self.visited.clear();
        self.doubts.clear();
        self.floor = 0;
        self.looks = 0;
    }

    /// The literal at this place is taken back, because of which no clause was let alone. Its own
    /// visit goes with it, if it was made. It takes no memory.
    pub(crate) fn take_out(&mut self, place: usize)
        ensures gone { place < visits self.old →
            self.new.visited.items ≡ remove self.old.visited.items place }
        ensures stays { visits self.old ≤ place → self.new.visited.items ≡ self.old.visited.items }
        ensures floor { self.new.floor ≡ self.old.floor }
        ensures doubts { self.new.doubts ≡ self.old.doubts }
    {
        if place < self.len() {
            self.visited.remove(place);
        }
    }

    /// At most so many literals are kept: so many, or none where no visit is left, so that visits
    /// begin again with few that are true. The last visit that began with no more of them was
    /// still under way when the next was set: it and all after it are to be made again. It takes
    /// no memory.
    pub(crate) fn rewind(&mut self, place: usize) -> usize
        ensures inside { result ≤ place }
        ensures rewound { IsRewound self.old self.new result }
    {
        self.looks = self.looks.saturating_add(self.doubts.len());
        if place <= self.floor || self.looks > place.saturating_add(FREE_LOOKS) {
            self.forget();
            return 0;
        }
        while let Some(trues) = self.visited.pop() {
            if trues <= place && !self.visited.is_empty() {
                return place;
            }
        }
        self.forget();
        0
    }
}
