//! The search of a watch list for the entry of a clause that is removed.
//!
//! It looks at 64 entries at once, then 16, then one by one. The more at once, the fewer
//! instructions an entry, up to what a processor's registers allow. It compares slot and mark in
//! one number, so that no slot is worked out. Where the list isn't short it looks around the place
//! first where an entry was taken out last, and where it is long, by a table of places and farther
//! around that place then.

ghost use Rattle.std.specs.Prelude.{◌≡◌, ℕ, ◌+◌, ◌==◌, length, if◌then◌else◌, IsTrue, IfSome, take};
ghost use Rattle.std.specs.Prelude.{◌<◌, ◌≤◌};
ghost use Rattle.cnf_base.specs.Literals.{Clause};
ghost use Rattle.watch_lists.specs.Lists.{entries_of, marked_entries, unfit_entries};
ghost use Rattle.watch_lists.specs.Code.Lists.{code_at, entries_with};

use crate::places::{Found, LONG, Places};
use crate::watcher::{Watcher, code_of};

/// How many entries are looked at without a branch, by a processor's wide registers, where a list
/// is long.
const MANY_AT_ONCE: usize = 64;

/// How many are, where fewer are left.
const FEW_AT_ONCE: usize = 16;

/// How far around a place an entry is looked for, one by one.
const AROUND: usize = 8;

/// Whether none of these entries has the code.
#[inline(always)]
fn lacks(list: &[Watcher], code: u32) -> bool
    ensures { IsTrue result → entries_with code list.now ≡ 0 }
{
    let mut is_absent = true;
    for place in 0..list.len() {
        is_absent &= list[place].code() != code;
    }
    is_absent
}

/// The place of an entry with this code in a list that has one, from this place on.
#[tactic(auto, using(crate::proofs::WatchListsLemmas::Lists::walk_steps))]
fn place_from(list: &[Watcher], code: u32, from: usize) -> usize
    requires there { 0 < entries_with code list.now }
    requires absent { entries_with code (take from list.now) ≡ 0 }
    ensures inside { result < length list.now }
    ensures there { code_at list.now result ≡ code }
{
    for place in from..list.len() {
        if list[place].code() == code {
            return place;
        }
    }
    0
}

/// Goes over as many entries at once as long as none has the code, from this place on.
#[inline(always)]
#[tactic(auto, using(crate::proofs::WatchListsLemmas::Lists::coded_chunk))]
fn pass_over(list: &[Watcher], code: u32, from: usize, at_once: usize) -> usize
    requires some { 0 < at_once }
    requires inside { from ≤ length list.now }
    ensures inside { result ≤ length list.now }
    ensures absent { entries_with code (take from list.now) ≡ 0 →
        entries_with code (take result list.now) ≡ 0 }
{
    let mut place = from;
    while list.len() - place >= at_once && lacks(&list[place..place + at_once], code) {
        place += at_once;
    }
    place
}

/// The place of an entry with this code between two places, if one stands there. It looks at the
/// entries one by one.
#[inline(always)]
fn place_between(list: &[Watcher], code: u32, from: usize, to: usize) -> Option<usize>
    requires { to ≤ length list.now }
    ensures inside { IfSome result (λ place. place < length list.now) }
    ensures there { IfSome result (λ place. code_at list.now place ≡ code) }
{
    for place in from..to {
        if list[place].code() == code {
            return Some(place);
        }
    }
    None
}

/// The same, but it looks at them at once first, and one by one only where one has the code.
fn place_within(list: &[Watcher], code: u32, from: usize, to: usize) -> Option<usize>
    requires ordered { from ≤ to }
    requires inside { to ≤ length list.now }
    ensures inside { IfSome result (λ place. place < length list.now) }
    ensures there { IfSome result (λ place. code_at list.now place ≡ code) }
{
    // As many at once as it mostly is: of a length that is known the compiler takes wide registers.
    let is_absent = if to - from == MANY_AT_ONCE {
        lacks(&list[from..from + MANY_AT_ONCE], code)
    } else {
        lacks(&list[from..to], code)
    };
    if is_absent {
        return None;
    }
    place_between(list, code, from, to)
}

/// The place of an entry with this code around this place, if one stands there.
fn place_around(list: &[Watcher], code: u32, middle: usize) -> Option<usize>
    ensures inside { IfSome result (λ place. place < length list.now) }
    ensures there { IfSome result (λ place. code_at list.now place ≡ code) }
{
    let end = middle.saturating_add(AROUND).min(list.len());
    place_between(list, code, middle.saturating_sub(AROUND), end)
}

/// The place of an entry with this code among those so far behind a place, or so far before it.
fn place_apart(list: &[Watcher], code: u32, middle: usize, apart: usize) -> Option<usize>
    ensures inside { IfSome result (λ place. place < length list.now) }
    ensures there { IfSome result (λ place. code_at list.now place ≡ code) }
{
    let from = middle.saturating_add(apart).min(list.len());
    let to = from.saturating_add(MANY_AT_ONCE).min(list.len());
    let behind = place_within(list, code, from, to);
    if behind.is_some() {
        return behind;
    }
    let before = middle.min(list.len()).saturating_sub(apart);
    place_within(list, code, before.saturating_sub(MANY_AT_ONCE), before)
}

/// An entry with this code, if one is found, sought by turns behind the place where one was taken
/// out last, before it, and from the end on, where those stand that came to the list of late.
#[inline(never)]
fn found_by_turns(list: &[Watcher], code: u32, last: usize) -> Option<Found>
    ensures inside { IfSome result (λ found. found.place < length list.now) }
    ensures there { IfSome result (λ found. code_at list.now found.place ≡ code) }
{
    for turn in 0..list.len() / (4 * MANY_AT_ONCE) {
        let apart = turn * MANY_AT_ONCE;
        let mut place = place_apart(list, code, last, apart);
        if place.is_none() {
            place = place_apart(list, code, list.len(), apart);
        }
        if let Some(place) = place {
            let passed = apart.saturating_mul(3);
            return Some(Found { place, passed });
        }
    }
    None
}

/// An entry with this code in a list that has one. Where the list isn't short, it is sought around
/// the place where one was taken out last, and where it is long, by its table and by turns then.
fn found_in(list: &[Watcher], code: u32, places: &Places, number: u32) -> Found
    requires { 0 < entries_with code list.now }
    ensures inside { result.place < length list.now }
    ensures there { code_at list.now result.place ≡ code }
{
    let last = places.last(number);
    if list.len() >= MANY_AT_ONCE {
        if let Some(place) = place_around(list, code, last) {
            return Found { place, passed: 0 };
        }
    }
    if list.len() >= LONG {
        if let Some(place) = places.place(number, list, code) {
            return Found { place, passed: 0 };
        }
        if let Some(found) = found_by_turns(list, code, last) {
            return found;
        }
    }
    let far = pass_over(list, code, 0, MANY_AT_ONCE);
    let near = pass_over(list, code, far, FEW_AT_ONCE);
    Found {
        place: place_from(list, code, near),
        passed: list.len(),
    }
}

/// Takes the entry of a slot with this mark out of a list that has one, and takes note of its
/// place. The list has a number.
#[tactic(auto, using(crate::proofs::WatchListsLemmas::Lists::taken_steps))]
pub(crate) fn take_off(
    list: &mut Vec<Watcher>,
    slot: u32,
    is_binary: bool,
    places: &mut Places,
    number: u32,
)
    requires low { slot < 2147483648 }
    requires there { 0 < marked_entries slot is_binary list.old.items }
    ensures times { (s : ℕ) → entries_of s list.new.items + (if s == slot then 1 else 0) ≡
        entries_of s list.old.items }
    ensures unfit { (s l : ℕ) (c : Clause) →
        unfit_entries s c l list.new.items ≤ unfit_entries s c l list.old.items }
    ensures len { length list.new.items + 1 ≡ length list.old.items }
{
    let found = found_in(list, code_of(slot, is_binary), places, number);
    list.swap_remove(found.place);
    places.note(number, list, found);
}
