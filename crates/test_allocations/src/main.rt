//! Makes calls of the readers and of the store again and again. `tests/allocations.py` counts their
//! allocations.
//!
//!     test_allocations CASE COUNT
//!
//! It reads COUNT steps of one form into one buffer, or as many clauses, or stores and removes as
//! many, or binds as many identifiers, or checks as many pairs of an addition and its deletion, and
//! prints how many it did, or that memory was refused there. What is read is handed out with no
//! memory of its own. Where identifiers are held, they stay bound, and the test looks at the bytes
//! that they take.
//!
//! For `tests/refusals.py` it makes a call that memory may be refused to, and says whether the call
//! was refused and left what it should; or calls that take no memory, where COUNT is not 0.
#![tactic(auto)]

ghost use Rattle.std.specs.Prelude.{◌<◌};

mod pairs;
mod quiet;
mod refused;

use crate::refused::bind_new;
use clause_db::{Slot, Store};
use cnf_base::{Fault, FromRead, Lit, OutOfMemory, Source};
use dimacs::{ClauseBuf, FormulaReader};
use ids::Ids;
use proofs::{DratBinary, DratText, LratText, StepBuf, StepReader};
use std::alloc::Global;
use std::io::Read;
use std::{env, io};
use steps::DratRules;

const PLAIN_RULES: DratRules = DratRules {
    strict: false,
    pr: false,
    keep_units: false,
};

/// What the calls are made with: a clause of two literals, one of many other variables, and a
/// literal of none of these.
#[derive(Clone, Copy)]
struct Literals<'a> {
    few: [Lit; 2],
    many: &'a [Lit],
    far: Lit,
}

/// What comes first, and then one text so many times.
#[derive(Drop)]
struct Repeated<'a> {
    rest: &'a [u8],
    text: &'a [u8],
    times: u64,
}

impl Read for Repeated<'_> {
    fn read(&mut self, buf: &mut [u8]) -> io::Result<usize> {
        if self.rest.is_empty() && self.times > 0 {
            self.times -= 1;
            self.rest = self.text;
        }
        self.rest.read(buf)
    }
}

fn open<'a>(
    alloc: Global,
    first: &'a [u8],
    text: &'a [u8],
    times: u64,
) -> Result<Source<FromRead<Repeated<'a>>>, OutOfMemory> {
    let reader = Repeated {
        rest: first,
        text,
        times,
    };
    match Source::new(alloc, FromRead::new(reader)) {
        Ok(source) => Ok(source),
        Err((refused, _)) => Err(refused),
    }
}

/// How many of so many calls say that they did something.
fn count_calls<F: FnMut(u64) -> Result<bool, Fault>>(times: u64, mut call: F) -> Result<u64, Fault>
    requires { (f : _) (x : _) → F.pre f x }
{
    let mut count = 0u64;
    for number in 0..times {
        if call(number)? {
            count = count.wrapping_add(1);
        }
    }
    Ok(count)
}

/// How many of so many steps the reader gives.
fn count_steps<R: StepReader>(alloc: Global, reader: &mut R, times: u64) -> Result<u64, Fault> {
    let mut step = StepBuf::new(alloc);
    count_calls(times, |_| reader.next(&mut step))
}

fn read_drat(alloc: Global, step: &[u8], times: u64) -> Result<u64, Fault> {
    let mut reader = DratText::new(open(alloc, b"", step, times)?);
    count_steps(alloc, &mut reader, times)
}

fn read_binary(alloc: Global, step: &[u8], times: u64) -> Result<u64, Fault> {
    let mut reader = DratBinary::new(open(alloc, b"", step, times)?);
    count_steps(alloc, &mut reader, times)
}

fn read_lrat(alloc: Global, step: &[u8], times: u64) -> Result<u64, Fault> {
    let mut reader = LratText::new(open(alloc, b"", step, times)?);
    count_steps(alloc, &mut reader, times)
}

/// How many of so many clauses are read, after this header.
fn read_formula(alloc: Global, header: &str, times: u64) -> Result<u64, Fault> {
    let source = open(alloc, header.as_bytes(), b"1 -2 0\n", times)?;
    let mut reader = match FormulaReader::open(source) {
        Ok(reader) => reader,
        Err((fault, _)) => return Err(fault),
    };
    let mut clause = ClauseBuf::new(alloc);
    count_calls(times, |_| reader.next(&mut clause))
}

/// Stores the clause and takes it out again, so many times.
fn store_and_remove(alloc: Global, lits: &[Lit], times: u64) -> Result<u64, Fault> {
    let mut store: Store = Store::new(alloc)?;
    let mut count = 0u64;
    for _ in 0..times {
        let slot = store.insert(lits)?;
        store.remove(slot);
        count = count.wrapping_add(1);
    }
    Ok(count)
}

/// Stores a clause of two literals and takes it out again.
fn store_pair_and_remove(store: &mut Store, lits: &[Lit], number: u64) -> Result<bool, Fault> {
    let positive = lits.get((number % 400) as usize);
    let negative = lits.get((number / 400 % 400) as usize);
    let (Some(positive), Some(negative)) = (positive, negative) else {
        return Ok(false);
    };
    let slot = store.insert(&[*positive, negative.neg()])?;
    store.remove(slot);
    Ok(true)
}

/// Does so with many clauses of 400 variables, of which the first 160000 are all different.
fn store_many_and_remove(alloc: Global, times: u64) -> Result<u64, Fault> {
    let lits = literals_of(alloc, 1, 401)?;
    let mut store: Store = Store::new(alloc)?;
    let mut count = 0u64;
    for number in 0..times {
        if store_pair_and_remove(&mut store, lits.as_slice(), number)? {
            count = count.wrapping_add(1);
        }
    }
    Ok(count)
}

/// Binds so many identifiers, which all stay bound: rows of some side by side, of which each begins
/// so far past the one before.
fn bind_rows(alloc: Global, row: u64, apart: u64, times: u64) -> Result<u64, Fault>
    requires { 0 < row }
{
    let mut ids = Ids::new(alloc)?;
    for number in 0..times {
        let first = (number / row).wrapping_mul(apart);
        bind_new(&mut ids, first.wrapping_add(number % row), Slot::first())?;
    }
    Ok(count_bound(&ids, times))
}

/// Does so with identifiers side by side and far ones by turns.
fn bind_by_turns(alloc: Global, times: u64) -> Result<u64, Fault> {
    let mut ids = Ids::new(alloc)?;
    for number in 0..times {
        let id = if number % 2 == 0 {
            number / 2
        } else {
            number.wrapping_mul(1024).wrapping_add(1 << 40)
        };
        bind_new(&mut ids, id, Slot::first())?;
    }
    Ok(count_bound(&ids, times))
}

/// How many identifiers are bound, of so many at most.
fn count_bound(ids: &Ids, most: u64) -> u64 {
    let mut count = 0u64;
    let mut start = 0u64;
    for _ in 0..most {
        let Some((id, _)) = ids.next_bound(start) else {
            return count;
        };
        count = count.wrapping_add(1);
        start = id.wrapping_add(1);
    }
    count
}

/// Binds so many identifiers, and takes each back 64 calls later. They go round through 64 pages.
fn bind_and_unbind(alloc: Global, times: u64) -> Result<u64, Fault> {
    let mut ids = Ids::new(alloc)?;
    let mut count = 0u64;
    for number in 0..times {
        bind_new(&mut ids, number % 128 * 512, Slot::first())?;
        let earlier = number.wrapping_add(64);
        let _ = ids.unbind(earlier % 128 * 512);
        count = count.wrapping_add(1);
    }
    Ok(count)
}

/// Reads what is named, if anything is.
fn read_named(alloc: Global, name: &str, header: &str, times: u64) -> Result<Option<u64>, Fault> {
    let count = match name {
        "drat_additions" => read_drat(alloc, b"1 -2 0\n", times),
        "drat_deletions" => read_drat(alloc, b"d 1 -2 0\n", times),
        "binary_additions" => read_binary(alloc, b"a\x02\x05\x00", times),
        "binary_deletions" => read_binary(alloc, b"d\x02\x05\x00", times),
        "lrat_additions" => read_lrat(alloc, b"5 1 -2 0 3 4 0\n", times),
        "lrat_deletions" => read_lrat(alloc, b"5 d 3 4 0\n", times),
        "formula" => read_formula(alloc, header, times),
        _ => return Ok(None),
    };
    Ok(Some(count?))
}

/// Stores and removes, or checks, what is named, if anything is.
fn store_named(alloc: Global, name: &str, lits: &[Lit], times: u64) -> Result<Option<u64>, Fault> {
    let count = match name {
        "store" => store_and_remove(alloc, lits, times),
        "store_of_many" => store_many_and_remove(alloc, times),
        "identifiers" => bind_and_unbind(alloc, times),
        "lrat_session" => pairs::check_pairs(alloc, lits, times),
        _ => return Ok(None),
    };
    Ok(Some(count?))
}

/// Binds the identifiers that are named, or none.
fn hold_named(alloc: Global, name: &str, times: u64) -> Result<u64, Fault> {
    match name {
        "held_side_by_side" => bind_rows(alloc, 1024, 1024, times),
        "held_2_apart" => bind_rows(alloc, 1, 2, times),
        "held_4_apart" => bind_rows(alloc, 1, 4, times),
        "held_8_apart" => bind_rows(alloc, 1, 8, times),
        "held_64_apart" => bind_rows(alloc, 1, 64, times),
        "held_1024_apart" => bind_rows(alloc, 1, 1024, times),
        "held_in_pairs" => bind_rows(alloc, 2, 1024, times),
        "held_by_turns" => bind_by_turns(alloc, times),
        _ => Ok(0),
    }
}

fn make_calls(
    alloc: Global,
    name: &str,
    header: &str,
    lits: &[Lit],
    times: u64,
) -> Result<u64, Fault> {
    if let Some(count) = read_named(alloc, name, header, times)? {
        return Ok(count);
    }
    if let Some(count) = store_named(alloc, name, lits, times)? {
        return Ok(count);
    }
    hold_named(alloc, name, times)
}

fn times_of(words: &[String]) -> u64 {
    match words.get(2) {
        Some(word) => word.parse::<u64>().unwrap_or(0),
        None => 0,
    }
}

/// The positive literals of the variables from `least` on, below `most`.
fn literals_of(alloc: Global, least: i32, most: i32) -> Result<Vec<Lit>, OutOfMemory> {
    let mut all = Vec::new(alloc);
    for number in least..most {
        if let Some(l) = Lit::new(number) {
            if all.push(l).is_err() {
                return Err(OutOfMemory);
            }
        }
    }
    Ok(all)
}

/// What is to be printed of a call that memory may be refused to, or of calls that take none, which
/// are made where they are called for; none where no such call is named.
fn try_call(
    alloc: Global,
    name: &str,
    few: [Lit; 2],
    is_called: bool,
) -> Result<Option<&'static str>, Fault> {
    let many = literals_of(alloc, 3, 43)?;
    let Some(far) = Lit::new(268435455) else {
        return Ok(None);
    };
    let literals = Literals {
        few,
        many: many.as_slice(),
        far,
    };
    if let Some(is_done) = quiet::carry_out(alloc, name, &literals, is_called)? {
        return Ok(Some(if is_done { "done" } else { "not done" }));
    }
    let told = refused::carry_out(alloc, name, &literals)?;
    Ok(told.map(|told| match told {
        refused::Told::Whole => "whole",
        refused::Told::Kept => "kept",
        refused::Told::Changed => "changed",
    }))
}

fn main(rt: HostRuntime) -> anyhow::Result<()> {
    let alloc = rt.alloc();
    let words = env::args(&rt)?.collect::<Vec<String>>(alloc)?;
    let times = times_of(words.as_slice());
    let name = match words.get(1) {
        Some(word) => word.as_str(),
        None => "",
    };
    let header = format!(in alloc; "p cnf 2 {times}\n")?;
    let lits = [Lit::new(1), Lit::new(-2)];
    let [Some(first), Some(second)] = lits else {
        return Ok(());
    };
    match try_call(alloc, name, [first, second], times > 0) {
        Ok(Some(told)) => {
            println!(rt; "{told}")?;
            return Ok(());
        }
        Ok(None) => {}
        Err(_) => {
            println!(rt; "out of memory")?;
            return Ok(());
        }
    }
    match make_calls(alloc, name, header.as_str(), &[first, second], times) {
        Ok(count) => println!(rt; "{count}")?,
        Err(Fault::OutOfMemory) => println!(rt; "out of memory")?,
        Err(_) => println!(rt; "a fault")?,
    }
    Ok(())
}
