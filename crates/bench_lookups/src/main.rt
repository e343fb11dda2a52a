//! Looks up among a million entries, to be measured by `bench/run.sh`.
//!
//!     bench_lookups ids|trail|store COUNT
//!
//! It fills identifiers, a trail or a store, does COUNT look-ups in an order that jumps, and prints
//! how many found what is there.
#![tactic(auto)]

ghost use Rattle.std.specs.Prelude.{◌<◌};

use clause_db::{Slot, Store};
use cnf_base::{Lit, OutOfMemory};
use ids::Ids;
use std::alloc::Global;
use std::env;
use trail::{Trail, Value};

const ENTRIES: u64 = 1000000;

/// The next of a row of numbers that jump about.
fn jump(number: u64) -> u64 {
    number
        .wrapping_mul(6364136223846793005)
        .wrapping_add(1442695040888963407)
}

/// One of the entries, from 0.
fn entry_of(number: u64) -> u64
    ensures { result < 1000000 }
{
    (number >> 33) % ENTRIES
}

/// The literal of a number.
fn literal(number: u64) -> Option<Lit> {
    Lit::new((number % 100000) as i32 + 1)
}

/// The literal that stands for an entry.
fn positive(entry: u64) -> Option<Lit> {
    Lit::new((entry % ENTRIES) as i32 + 1)
}

/// Three literals that an entry determines.
fn clause_of(entry: u64) -> Option<[Lit; 3]> {
    let first = jump(entry);
    let second = jump(first);
    let a = literal(first >> 33)?;
    let b = literal(second >> 33)?;
    let c = literal(entry)?;
    Some([a.neg(), b, c])
}

/// How many of the entries that so many jumps come to are found.
fn count_found<F: FnMut(u64) -> bool>(count: u64, mut is_found: F) -> u64
    requires { (f : _) (x : _) → F.pre f x }
{
    let mut found = 0u64;
    let mut at = 1;
    for _ in 0..count {
        at = jump(at);
        if is_found(entry_of(at)) {
            found = found.wrapping_add(1);
        }
    }
    found
}

fn fill_ids(alloc: Global) -> Result<Ids, OutOfMemory> {
    let mut ids = Ids::new(alloc)?;
    for id in 1..1000001u64 {
        if ids.slot_of(id).is_none() {
            ids.bind(id, Slot::first())?;
        }
    }
    Ok(ids)
}

fn look_up_ids(alloc: Global, count: u64) -> Result<u64, OutOfMemory> {
    let ids = fill_ids(alloc)?;
    Ok(count_found(count, |entry| ids.slot_of(entry.wrapping_add(1)).is_some()))
}

/// Sets a literal where it is open.
fn set_open(trail: &mut Trail, l: Lit) -> Result<(), OutOfMemory> {
    trail.reserve(l.var())?;
    if trail.value(l) == Value::Open {
        trail.set(l);
    }
    Ok(())
}

fn fill_trail(alloc: Global) -> Result<Trail, OutOfMemory> {
    let mut trail = Trail::new(alloc)?;
    for entry in 0..1000000u64 {
        let Some(l) = positive(entry) else {
            return Ok(trail);
        };
        set_open(&mut trail, l)?;
    }
    Ok(trail)
}

fn look_up_trail(alloc: Global, count: u64) -> Result<u64, OutOfMemory> {
    let trail = fill_trail(alloc)?;
    Ok(count_found(count, |entry| match positive(entry) {
        Some(l) => trail.value(l) == Value::True,
        None => false,
    }))
}

fn fill_store(alloc: Global) -> Result<Store, OutOfMemory> {
    let mut store = Store::new(alloc)?;
    for entry in 0..1000000u64 {
        if let Some(clause) = clause_of(entry) {
            store.insert(clause.as_slice())?;
        }
    }
    Ok(store)
}

fn look_up_store(alloc: Global, count: u64) -> Result<u64, OutOfMemory> {
    let mut store = fill_store(alloc)?;
    Ok(count_found(count, |entry| match clause_of(entry) {
        Some(clause) => store.find(clause.as_slice()).is_some(),
        None => false,
    }))
}

fn look_up(alloc: Global, what: &str, count: u64) -> Result<u64, OutOfMemory> {
    match what {
        "ids" => look_up_ids(alloc, count),
        "trail" => look_up_trail(alloc, count),
        "store" => look_up_store(alloc, count),
        _ => Ok(0),
    }
}

fn main(rt: HostRuntime) -> anyhow::Result<()> {
    let words = env::args(&rt)?.collect::<Vec<String>>(rt.alloc())?;
    let what = match words.get(1) {
        Some(word) => word.as_str(),
        None => "",
    };
    let count = match words.get(2) {
        Some(word) => word.parse::<u64>().unwrap_or(0),
        None => 0,
    };
    match look_up(rt.alloc(), what, count) {
        Ok(found) => println!(rt; "{found}")?,
        Err(OutOfMemory) => eprintln!(rt; "bench_lookups: out of memory")?,
    }
    Ok(())
}
