//! By slot an identifier that is bound to it, in one pass over the pages and the tree.

ghost use Rattle.std.specs.Prelude.{◌≡◌, ◌≢◌, ℕ, ◌+◌, ◌-◌, ◌/◌, ◌<◌, ◌==◌, if◌then◌else◌};
ghost use Rattle.std.specs.Prelude.{slice_index, IfSome, IfNone, OnOk};
ghost use Rattle.ids.specs.Code.Far.{far_at};
ghost use Rattle.ids.specs.Code.Ids.{entry_at, page_at, place, IsPaged};

use crate::directory::Directory;
use crate::far::{far_number, first_far};
use crate::pages::{PAGE, Pages};
use cnf_base::OutOfMemory;
use std::collections::BTreeMap;

/// Puts in an identifier at the slot that its entry names.
fn note(by_slot: &mut Vec<u64>, entry: u32, id: u64) -> Result<(), OutOfMemory>
    requires { 0 < entry }
    ensures { OnOk result ((s : ℕ) → slice_index by_slot.new.items s ≡
        (if s == entry - 1 then id else slice_index by_slot.old.items s)) }
{
    let slot = entry as usize - 1;
    if slot >= by_slot.len() {
        by_slot.resize(slot + 1, 0)?;
    }
    by_slot[slot] = id;
    Ok(())
}

/// The identifier whose entry stands at a place.
fn owner_of(directory: &Directory, pages: &Pages, at: usize) -> Option<u64>
    requires { IsPaged directory.now pages.now }
    ensures some { IfSome result (λ id. page_at directory.now (id / 1024) ≢ 0) }
    ensures there { IfSome result (λ id. place (page_at directory.now (id / 1024)) id ≡ at) }
    ensures none { IfNone result ((id : ℕ) → page_at directory.now (id / 1024) ≢ 0 →
        place (page_at directory.now (id / 1024)) id ≢ at) }
{
    let page = at / PAGE as usize;
    let number = pages.numbers.get(page)?.checked_sub(1)?;
    if directory.page(number) as usize != page + 1 {
        return None;
    }
    Some(number * PAGE + at as u64 % PAGE)
}

/// Notes the identifiers in pages.
pub(crate) fn note_paged(
    by_slot: &mut Vec<u64>,
    directory: &Directory,
    pages: &Pages,
) -> Result<(), OutOfMemory>
    requires { IsPaged directory.now pages.now }
    ensures { OnOk result ((k : ℕ) → entry_at directory.now pages.now k ≢ 0 →
        entry_at directory.now pages.now
        (slice_index by_slot.new.items (entry_at directory.now pages.now k - 1)) ≡
        entry_at directory.now pages.now k) }
{
    for at in 0..pages.entries.len() {
        let entry = pages.entries[at];
        if entry != 0
            && let Some(id) = owner_of(directory, pages, at)
        {
            note(by_slot, entry, id)?;
        }
    }
    Ok(())
}

/// Notes the far identifiers.
pub(crate) fn note_far(by_slot: &mut Vec<u64>, far: &BTreeMap<u64, u32>) -> Result<(), OutOfMemory>
    ensures noted { OnOk result ((k : ℕ) → k < 18446744073709551616 → far_at far.now k ≢ 0 →
        far_at far.now (slice_index by_slot.new.items (far_at far.now k - 1)) ≡
        far_at far.now k) }
    ensures others { OnOk result ((s : ℕ) →
        far_at far.now (slice_index by_slot.new.items s) ≢ s + 1 →
        slice_index by_slot.new.items s ≡ slice_index by_slot.old.items s) }
{
    let mut from = 0;
    while let Some(id) = first_far(far, from) {
        note(by_slot, far_number(far, id), id)?;
        let Some(next) = id.checked_add(1) else {
            return Ok(());
        };
        from = next;
    }
    Ok(())
}
