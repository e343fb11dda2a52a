//! How much is read of a second input.

use crate::support::reports::expect;
use std::alloc::Global;
use std::test::Fail;
use test_inputs::{Cut, MANY, Pieces, Stop, Writer, expect_equal, expect_true_at, repeated};
use test_rows::Row;

// So many lines that can't be read, and a failed read, come after the step that decides.
pub fn expect_unread_lines(alloc: Global, row: &Row<'_>, count: usize) -> Result<(), Fail> {
    let bytes = repeated(alloc, row.second, b"?\n", count, b"")?;
    let row = Row {
        name: "bad tokens",
        second: bytes.as_slice(),
        second_cut: Cut::Fails,
        ..*row
    };
    expect(alloc, &row)
}

// After the second input come 400000 bytes more, which makes so many. They are handed out in pieces
// as large as one likes. No more than one piece is read past the step that decides: at least so
// many bytes are left.
pub fn expect_one_piece_further(
    alloc: Global,
    row: &Row<'_>,
    length: usize,
    least: usize,
) -> Result<(), Fail> {
    let bytes = repeated(alloc, row.second, b"1 0\n", MANY, b"")?;
    expect_equal(bytes.len(), length)?;
    let report = row.report(alloc)?;
    let engines = row.request.engines(alloc)?;
    for engine in engines.as_slice() {
        let mut formula = Pieces::new(row.formula, 4096, row.formula_cut);
        let mut second = Pieces::of_bytes(bytes.as_slice(), usize::MAX, row.second_cut);
        let writer = Writer::new(alloc, usize::MAX, Stop::TakesNone);
        let (code, written) = engine.run(alloc, &mut formula, &mut second, writer);
        expect_equal(written.as_slice(), report.as_bytes())?;
        expect_equal(code, row.status)?;
        let left = second.left();
        expect_true_at((left, engine), left >= least)?;
    }
    Ok(())
}
