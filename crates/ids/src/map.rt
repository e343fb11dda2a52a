//! The map from LRAT's identifiers to slots: pages for identifiers in a row, a tree for far ones.
//!
//! Identifiers rise, and those that are alive are near each other. So a look-up is two loads: the
//! directory names the page of each 1024 identifiers, and the page has an entry of four bytes for
//! each. An identifier far from all others would take a whole page; those stand in the tree.

ghost use Rattle.std.specs.Prelude.{◌≡◌, ◌≢◌, ℕ, ◌+◌, ◌-◌, ◌*◌, ◌/◌, ◌^◌, ◌<◌, ◌≤◌, slice_index};
ghost use Rattle.std.specs.Prelude.{Some, None, IfSome, IfNone, IfOk, OnOk, OnErr};
ghost use Rattle.std.specs.FinMap as maps;
ghost use Rattle.ids.specs.Code.Far.{far_at};
ghost use Rattle.ids.specs.Code.Ids.{entry_at, entry_for, page_at, slot_from};
ghost use Rattle.ids.specs.Code.Ids.{IsEmptyPage, IsPaged, IsFirst};

use crate::by_slot::{note_far, note_paged};
use crate::credit::Credit;
use crate::directory::Directory;
use crate::far::{far_number, first_far, put_far, take_far};
use crate::pages::{PAGE, Pages, place_in};
use crate::row::first_set;
use clause_db::Slot;
use cnf_base::OutOfMemory;
use std::alloc::Global;
use std::collections::BTreeMap;
use std::marker::Model;

/// The identifiers of clauses, each with the slot of its clause.
///
/// Contracts see it as a finite map. It is made for identifiers that rise: a page has 1024 in a
/// row, and one in which none is bound is used again. Those that are far from others stand in a
/// tree. `credit.rt` says which, and what they cost.
#[derive(Drop)]
pub struct Ids {
    directory: Directory,
    pages: Pages,
    /// The entries of identifiers that have none in a page.
    far: BTreeMap<u64, u32>,
    credit: Credit,
}

impl Model for Ids {
    ghost use Rattle.std.specs.Prelude.{ℕ};
    ghost use Rattle.std.specs.Ordering.{nat_cmp};
    ghost use Rattle.std.specs.Coded.{coded_ℕ};
    ghost use Rattle.std.specs.FinMap as maps;
    ghost use Rattle.std.specs.FinMap.{FinMap};
    ghost use Rattle.ids.specs.Code.Ids.{as_map, entry_for, IsHeld};

    ghost Value = { FinMap nat_cmp ℕ };

    ghost coded = { maps.code coded_ℕ coded_ℕ };

    // Each field has to be named here. No identifier and no slot is a literal.
    ghost view = { λ record { directory = directory; pages = pages; far = far; credit = _ }.
        as_map (entry_for directory pages far) };

    ghost invariant = { λ i. IsHeld i.directory i.pages i.far };
}

/// What a page says of an identifier that is bound to the slot. An entry has four bytes.
fn entry_of(slot: Slot) -> Result<u32, OutOfMemory>
    ensures { IfOk result (λ entry. entry ≡ slot + 1) }
{
    match u32::try_from(slot.number()) {
        Ok(number) if number < u32::MAX => Ok(number + 1),
        _ => Err(OutOfMemory),
    }
}

/// The slot that an entry names.
#[inline]
fn slot_in(entry: u32) -> Option<Slot>
    ensures { result ≡ slot_from entry }
{
    if entry == 0 {
        None
    } else {
        Some(Slot::at(entry as usize - 1))
    }
}

/// The entry of an identifier in its page, or 0.
#[inline]
fn paged_entry(directory: &Directory, pages: &Pages, id: u64) -> u32
    requires { IsPaged directory.now pages.now }
    ensures { result ≡ entry_at directory.now pages.now id }
{
    let page = directory.page(id / PAGE);
    if page == 0 {
        return 0;
    }
    pages.entries[place_in(page, id)]
}

/// The entry of an identifier, 0 where it is not bound.
#[inline]
fn entry(directory: &Directory, pages: &Pages, far: &BTreeMap<u64, u32>, id: u64) -> u32
    requires { IsPaged directory.now pages.now }
    ensures { result ≡ entry_for directory.now pages.now far.now id }
{
    let entry = paged_entry(directory, pages, id);
    if entry == 0 {
        return far_number(far, id);
    }
    entry
}

/// Gives a page number that has no page one in which nothing is bound.
fn open(directory: &mut Directory, pages: &mut Pages, number: u64) -> Result<u32, OutOfMemory>
    requires paged { IsPaged directory.old pages.old }
    requires number { number < 2 ^ 54 }
    requires none { page_at directory.old number ≡ 0 }
    ensures paged { IsPaged directory.new pages.new }
    ensures same { (id : ℕ) → entry_at directory.new pages.new id ≡
        entry_at directory.old pages.old id }
    ensures ok { IfOk result (λ page. page_at directory.new number ≡ page) }
{
    let page = pages.vacant()?;
    directory.put(number, page)?;
    pages.own(page, number);
    Ok(page)
}

/// Takes a page, in which nothing is bound, from its number. It takes no memory.
#[cold]
#[inline(never)]
fn take_page(directory: &mut Directory, pages: &mut Pages, number: u64, page: u32)
    requires paged { IsPaged directory.old pages.old }
    requires page { page_at directory.old number ≡ page }
    requires some { page ≢ 0 }
    requires empty { IsEmptyPage pages.old page }
    ensures paged { IsPaged directory.new pages.new }
    ensures same { (id : ℕ) → entry_at directory.new pages.new id ≡
        entry_at directory.old pages.old id }
{
    directory.remove(number);
    pages.release(page);
}

/// Takes the page from a page number, where nothing is bound in it and another number is the one
/// that keeps its page. It takes no memory.
#[inline(always)]
fn close(directory: &mut Directory, pages: &mut Pages, number: u64, kept: u64)
    requires paged { IsPaged directory.old pages.old }
    ensures paged { IsPaged directory.new pages.new }
    ensures same { (id : ℕ) → entry_at directory.new pages.new id ≡
        entry_at directory.old pages.old id }
{
    if number == kept {
        return;
    }
    let page = directory.page(number);
    if page != 0 && pages.is_empty(page) {
        take_page(directory, pages, number, page);
    }
}

/// The page that an identifier goes to, 0 where it goes to none. One is made where there is credit
/// for it.
fn page_for(
    directory: &mut Directory,
    pages: &mut Pages,
    credit: &mut Credit,
    id: u64,
) -> Result<u32, OutOfMemory>
    requires { IsPaged directory.old pages.old }
    ensures paged { IsPaged directory.new pages.new }
    ensures same { (k : ℕ) → entry_at directory.new pages.new k ≡
        entry_at directory.old pages.old k }
    ensures ok { IfOk result (λ page. page_at directory.new (id / 1024) ≡ page) }
{
    let number = id / PAGE;
    close(directory, pages, credit.last() / PAGE, number);
    let page = directory.page(number);
    if page != 0 || !(pages.has_spare() || credit.pay(id)) {
        return Ok(page);
    }
    open(directory, pages, number)
}

/// The least page number from `from` on that has a page.
fn next_number(directory: &Directory, pages: &Pages, from: u64) -> Option<u64>
    requires { IsPaged directory.now pages.now }
    ensures some { IfSome result (λ q. IsFirst (page_at directory.now) from (2 ^ 64) q) }
    ensures none { IfNone result
        ((k : ℕ) → from ≤ k → k < 2 ^ 64 → page_at directory.now k ≡ 0) }
{
    let mut least = u64::MAX;
    for i in 0..pages.numbers.len() {
        let next = pages.numbers[i];
        if next > from && next < least && directory.page(next - 1) != 0 {
            least = next;
        }
    }
    if least == u64::MAX {
        None
    } else {
        Some(least - 1)
    }
}

/// The first identifier of a page from one on that is bound.
fn first_in(directory: &Directory, pages: &Pages, from: u64) -> Option<u64>
    requires { IsPaged directory.now pages.now }
    ensures some { IfSome result (λ q. IsFirst (entry_at directory.now pages.now) from
        (1024 * (from / 1024) + 1024) q) }
    ensures none { IfNone result ((k : ℕ) → from ≤ k → k < 1024 * (from / 1024) + 1024 →
        entry_at directory.now pages.now k ≡ 0) }
{
    let page = directory.page(from / PAGE);
    if page == 0 {
        return None;
    }
    let start = place_in(page, from);
    let end = page as usize * PAGE as usize;
    let place = first_set(&pages.entries, start, end)?;
    Some(from + (place - start) as u64)
}

/// The least identifier from one on that is bound in a page. Pages past `to` aren't looked at.
fn first_paged(directory: &Directory, pages: &Pages, from: u64, to: u64) -> Option<u64>
    requires { IsPaged directory.now pages.now }
    ensures some { IfSome result (λ q. IsFirst (entry_at directory.now pages.now) from
        (2 ^ 64) q) }
    ensures none { IfNone result ((k : ℕ) → from ≤ k → k ≤ to →
        entry_at directory.now pages.now k ≡ 0) }
{
    let mut start = from;
    while start <= to {
        if let Some(found) = first_in(directory, pages, start) {
            return Some(found);
        }
        start = next_number(directory, pages, start / PAGE + 1)? * PAGE;
    }
    None
}

/// The least identifier from one on that is bound.
fn first_bound(
    directory: &Directory,
    pages: &Pages,
    far: &BTreeMap<u64, u32>,
    from: u64,
) -> Option<u64>
    requires { IsPaged directory.now pages.now }
    ensures some { IfSome result (λ q. IsFirst (entry_for directory.now pages.now far.now) from
        (2 ^ 64) q) }
    ensures none { IfNone result ((k : ℕ) → from ≤ k → k < 2 ^ 64 →
        entry_for directory.now pages.now far.now k ≡ 0) }
{
    let far = first_far(far, from);
    match (
        first_paged(directory, pages, from, far.unwrap_or(u64::MAX)),
        far,
    ) {
        (Some(paged), Some(id)) => Some(paged.min(id)),
        (Some(paged), None) => Some(paged),
        (None, far) => far,
    }
}

impl Ids {
    /// No identifier is bound.
    #[tactic(auto, using(crate::proofs::IdLemmas::Map::empty_steps))]
    pub fn new(alloc: Global) -> Result<Self, OutOfMemory>
        ensures { IfOk result (λ ids. ids ≡ maps.empty) }
    {
        let directory = Directory::new(alloc)?;
        Ok(Ids {
            directory,
            pages: Pages::new(alloc),
            far: BTreeMap::new(alloc),
            credit: Credit::new(),
        })
    }

    /// Binds an identifier, which is bound to nothing yet, to a slot.
    ///
    /// # Errors
    ///
    /// Where memory runs out. The same identifiers are then bound as before.
    pub fn bind(&mut self, id: u64, slot: Slot) -> Result<(), OutOfMemory>
        requires { maps.get self.old id ≡ None }
        ensures ok { OnOk result (self.new ≡ maps.insert self.old id slot) }
        ensures err { OnErr result (self.new ≡ self.old) }
    {
        let entry = entry_of(slot)?;
        let page = page_for(&mut self.directory, &mut self.pages, &mut self.credit, id)?;
        self.credit.earn(id);
        if page == 0 {
            put_far(&mut self.far, id, entry)?;
            return Ok(());
        }
        self.pages.fill(page, id, entry);
        Ok(())
    }

    /// The slot of an identifier, in constant time where identifiers are dense, and else in a
    /// logarithm of their number.
    #[inline]
    #[tactic(auto, using(crate::proofs::IdLemmas::Map::map_steps))]
    pub fn slot_of(&self, id: u64) -> Option<Slot>
        ensures { result ≡ maps.get self.now id }
    {
        slot_in(entry(&self.directory, &self.pages, &self.far, id))
    }

    /// Takes back what an identifier is bound to, and returns its slot. It takes no memory.
    pub fn unbind(&mut self, id: u64) -> Option<Slot>
        ensures was { result ≡ maps.get self.old id }
        ensures ids { self.new ≡ maps.remove self.old id }
    {
        let entry = paged_entry(&self.directory, &self.pages, id);
        if entry == 0 {
            return slot_in(take_far(&mut self.far, id));
        }
        let page = self.directory.page(id / PAGE);
        self.pages.clear(page, id);
        // The next one is likely to come to the page of the last one.
        let kept = self.credit.last() / PAGE;
        close(&mut self.directory, &mut self.pages, id / PAGE, kept);
        slot_in(entry)
    }

    /// The least bound identifier that is not below `from`, with its slot. It takes no memory.
    ///
    /// Where none is bound in the page of `from`, it goes over the numbers of all pages. So to go
    /// over all identifiers takes `put_by_slot` less.
    #[tactic(auto, using(crate::proofs::IdLemmas::Map::map_steps))]
    pub fn next_bound(&self, from: u64) -> Option<(u64, Slot)>
        ensures above { IfSome result (λ p. from ≤ p.0) }
        ensures bound { IfSome result (λ p. maps.get self.now p.0 ≡ Some p.1) }
        ensures first { IfSome result (λ p. (k : ℕ) → from ≤ k → k < p.0 →
            maps.get self.now k ≡ None) }
        ensures none { IfNone result ((k : ℕ) → from ≤ k → maps.get self.now k ≡ None) }
    {
        let id = first_bound(&self.directory, &self.pages, &self.far, from)?;
        let slot = slot_in(entry(&self.directory, &self.pages, &self.far, id))?;
        Some((id, slot))
    }

    /// Puts in, for each slot that an identifier is bound to, an identifier that is bound to it. It
    /// goes over what is bound once.
    ///
    /// # Errors
    ///
    /// Where memory runs out.
    pub fn put_by_slot(&self, by_slot: &mut Vec<u64>) -> Result<(), OutOfMemory>
        ensures { OnOk result ((k slot : ℕ) → maps.get self.now k ≡ Some slot →
            maps.get self.now (slice_index by_slot.new.items slot) ≡ Some slot) }
    {
        note_paged(by_slot, &self.directory, &self.pages)?;
        note_far(by_slot, &self.far)?;
        Ok(())
    }
}
