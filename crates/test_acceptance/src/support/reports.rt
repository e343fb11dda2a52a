//! Rows are run, and what comes out is compared.

use std::alloc::{AllocError, Global};
use std::fmt::Debug;
use std::test::Fail;
use test_inputs::{Pieces, SIZES, Stop, Writer, expect_equal_at, text};
use test_rows::{Engine, Row};

// What was written, and the status. The first value tells where a failure is.
pub fn expect_outcome<N: Copy + Debug>(
    alloc: Global,
    at: N,
    found: &(u8, Vec<u8>),
    expected: (Option<&str>, u8),
) -> Result<(), Fail> {
    let (code, written) = found;
    let (report, status) = expected;
    let written = text(alloc, written.as_slice())?;
    expect_equal_at(at, Some(written.as_str()), report)?;
    expect_equal_at(at, *code, status)
}

// Runs over inputs in pieces of this size, and compares what is written and the status.
// Where it is given whether the second input is asked for, that is compared too.
fn expect_run(
    alloc: Global,
    engine: Engine,
    row: &Row<'_>,
    size: usize,
    is_read: Option<bool>,
) -> Result<(), Fail> {
    let mut formula = Pieces::new(row.formula, size, row.formula_cut);
    let mut second = Pieces::of_bytes(row.second, size, row.second_cut);
    let writer = Writer::new(alloc, usize::MAX, Stop::TakesNone);
    let found = engine.run(alloc, &mut formula, &mut second, writer);
    let report = row.report(alloc)?;
    let name = row.name;
    let expected = (Some(report.as_str()), row.status);
    expect_outcome(alloc, (name, engine, size), &found, expected)?;
    if let Some(expected) = is_read {
        expect_equal_at((name, engine), second.reads > 0, expected)?;
    }
    Ok(())
}

fn expect_runs(
    alloc: Global,
    row: &Row<'_>,
    size: usize,
    is_read: Option<bool>,
) -> Result<(), Fail> {
    let engines = row.request.engines(alloc)?;
    for engine in engines.as_slice() {
        expect_run(alloc, *engine, row, size, is_read)?;
    }
    Ok(())
}

// Nobody asks for the second input.
pub fn expect_unread(alloc: Global, row: &Row<'_>) -> Result<(), Fail> {
    expect_runs(alloc, row, 7, Some(false))
}

// Somebody asks for it: the count counts.
pub fn expect_read(alloc: Global, row: &Row<'_>) -> Result<(), Fail> {
    expect_runs(alloc, row, 7, Some(true))
}

// Runs over inputs in pieces of four sizes.
pub fn expect(alloc: Global, row: &Row<'_>) -> Result<(), Fail> {
    for size in SIZES {
        expect_runs(alloc, row, size, None)?;
    }
    Ok(())
}

pub fn expect_all(alloc: Global, rows: &[Row<'_>]) -> Result<(), Fail> {
    for row in rows {
        expect(alloc, row)?;
    }
    Ok(())
}

// A formula and the line of it, with a name, a second input and the lines that come after that of
// the formula.
pub fn expect_after(
    alloc: Global,
    base: &Row<'_>,
    formula: (&str, &str),
    case: (&str, &[u8], &str),
    status: u8,
) -> Result<(), Fail> {
    let (formula, formula_line) = formula;
    let (name, second, lines) = case;
    let lines = format!(in alloc; "{formula_line}\n{lines}")?;
    let row = Row {
        name,
        formula,
        second,
        lines: lines.as_str(),
        status,
        ..*base
    };
    expect(alloc, &row)
}
