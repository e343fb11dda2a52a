//! Rows are run with writers that have room for a beginning of the report.

use crate::support::reports::expect_outcome;
use std::alloc::{AllocError, Global};
use std::test::Fail;
use test_inputs::{Pieces, Stop, Writer, expect_equal};
use test_rows::{Engine, Row};

fn run(alloc: Global, engine: Engine, row: &Row<'_>, writer: Writer) -> (u8, Vec<u8>) {
    let mut formula = Pieces::new(row.formula, 4096, row.formula_cut);
    let mut second = Pieces::of_bytes(row.second, 4096, row.second_cut);
    engine.run(alloc, &mut formula, &mut second, writer)
}

// Runs with this writer, and compares the first `n` bytes of the report and the status.
fn expect_beginning(
    alloc: Global,
    engine: Engine,
    row: &Row<'_>,
    writer: Writer,
    n: usize,
    status: u8,
) -> Result<(), Fail> {
    let found = run(alloc, engine, row, writer);
    let report = row.report(alloc)?;
    let expected = (report.as_str().get(..n), status);
    expect_outcome(alloc, (row.name, engine, n), &found, expected)
}

// What room a writer has.
#[derive(Clone, Copy, Debug, PartialEq, Eq)]
enum Room {
    // For each beginning of the report, after which the writer does this.
    TooLittle(Stop),
    // For just the report, then one byte a call, and then a flush that fails.
    Enough,
}

fn expect_room(alloc: Global, engine: Engine, row: &Row<'_>, room: Room) -> Result<(), Fail> {
    let length = row.report(alloc)?.len();
    match room {
        Room::TooLittle(stop) => {
            for n in 0..length {
                let writer = Writer::new(alloc, n, stop);
                expect_beginning(alloc, engine, row, writer, n, 5)?;
            }
        }
        Room::Enough => {
            let just = Writer::new(alloc, length, Stop::Fails);
            expect_beginning(alloc, engine, row, just, length, row.status)?;
            let slow = Writer::byte_a_call(alloc);
            expect_beginning(alloc, engine, row, slow, length, row.status)?;
            let unflushed = Writer::without_flush(alloc);
            expect_beginning(alloc, engine, row, unflushed, length, 5)?;
        }
    }
    Ok(())
}

fn expect_all_room(alloc: Global, rows: &[Row<'_>], room: Room) -> Result<(), Fail> {
    for row in rows {
        let engines = row.request.engines(alloc)?;
        for engine in engines.as_slice() {
            expect_room(alloc, *engine, row, room)?;
        }
    }
    Ok(())
}

// Room for each beginning of the report, after which the writer does each thing, and for the whole
// of it. Nothing is written after a failure, even where it would be taken.
pub fn expect_any_room(alloc: Global, rows: &[Row<'_>]) -> Result<(), Fail> {
    for stop in [Stop::TakesNone, Stop::Fails, Stop::FailsOnce] {
        expect_all_room(alloc, rows, Room::TooLittle(stop))?;
    }
    expect_all_room(alloc, rows, Room::Enough)
}

// A writer that takes ten bytes and then fails.
pub fn expect_ten_bytes(alloc: Global, row: &Row<'_>, bytes: &[u8]) -> Result<(), Fail> {
    let engines = row.request.engines(alloc)?;
    for engine in engines.as_slice() {
        let (code, written) = run(alloc, *engine, row, Writer::new(alloc, 10, Stop::Fails));
        expect_equal(written.as_slice(), bytes)?;
        expect_equal(code, 5)?;
    }
    Ok(())
}
