//! Inputs that are cut after some of their bytes, by their end or by a failed read.

use crate::support::reports::expect;
use std::alloc::Global;
use std::test::Fail;
use test_inputs::{Cut, expect_true_at};
use test_rows::Row;

// A run, of which one input is cut.
#[derive(Clone, Copy)]
pub enum Cutting<'a> {
    // Nothing is written of the formula before its fault.
    Formula(Row<'a>),
    // With what is written of the formula before what is said of the second input.
    Second(Row<'a>, &'a str),
}

// Lines of a report, and the status.
pub type Expected<'a> = (&'a str, u8);

// The first n bytes of a header with one digit each, for each n from 0 to 10. The line feed is the
// tenth.
pub const HEADER: [Expected<'static>; 11] = [
    ("c formula 1:1: bad header", 2),
    ("c formula 1:2: bad header", 2),
    ("c formula 1:3: bad header", 2),
    ("c formula 1:3: bad header", 2),
    ("c formula 1:3: bad header", 2),
    ("c formula 1:6: bad header", 2),
    ("c formula 1:7: bad header", 2),
    ("c formula 1:8: bad header", 2),
    ("c formula 1:9: bad header", 2),
    ("c formula 1:10: too few clauses", 2),
    ("c formula 2:1: too few clauses", 2),
];

// What is written before what is said of a proof of `E`.
pub const E_SHOWN: &str = "c formula 2 variables 4 clauses\n";

// What is said of a proof where a read of it fails, also after one accepted step.
pub const UNREAD_PROOF: Expected<'static> = ("c cannot read proof", 3);

pub const UNREAD_AFTER_ONE: Expected<'static> = ("c 1 add rup\nc cannot read proof", 3);

pub const UNREAD_FORMULA: Expected<'static> = ("c cannot read formula", 3);

impl<'a> Cutting<'a> {
    // The run with whole inputs.
    fn whole(&self) -> Row<'a> {
        match *self {
            Cutting::Formula(row) | Cutting::Second(row, _) => row,
        }
    }

    // With reads that fail after the last byte of the input that is cut.
    fn failing(self) -> Cutting<'a> {
        match self {
            Cutting::Formula(row) => Cutting::Formula(Row {
                formula_cut: Cut::Fails,
                ..row
            }),
            Cutting::Second(row, before) => {
                let second_cut = Cut::Fails;
                Cutting::Second(Row { second_cut, ..row }, before)
            }
        }
    }

    // So many bytes of the input.
    fn expect_cut(&self, alloc: Global, n: usize, expected: Expected<'_>) -> Result<(), Fail> {
        let whole = self.whole();
        let (formula, second) = match self {
            Cutting::Formula(_) => (whole.formula.get(..n), Some(whole.second)),
            Cutting::Second(..) => (Some(whole.formula), whole.second.get(..n)),
        };
        expect_true_at(n, formula.is_some() && second.is_some())?;
        let formula = formula.unwrap_or(whole.formula);
        let second = second.unwrap_or(whole.second);
        let (formula_length, second_length) = (formula.len(), second.len());
        let name = format!(in alloc; "{formula_length} and {second_length} bytes")?;
        let (lines, status) = expected;
        let row = Row {
            name: name.as_str(),
            formula,
            second,
            lines,
            status,
            ..whole
        };
        expect(alloc, &row)
    }

    // The first n bytes of the input, for each n from this one on.
    fn expect(&self, alloc: Global, first: usize, rows: &[Expected<'_>]) -> Result<(), Fail> {
        let before = match *self {
            Cutting::Formula(_) => "",
            Cutting::Second(_, before) => before,
        };
        let mut n = first;
        for (lines, status) in rows {
            let lines = format!(in alloc; "{before}{lines}")?;
            self.expect_cut(alloc, n, (lines.as_str(), *status))?;
            n = n.saturating_add(1);
        }
        Ok(())
    }

    // The tables say what comes of the first n bytes of the input, for each n from 0 on. With more
    // of them all is read.
    fn expect_ends(&self, alloc: Global, tables: &[&[Expected<'_>]]) -> Result<(), Fail> {
        let mut first = 0usize;
        for table in tables {
            self.expect(alloc, first, table)?;
            first = first.saturating_add(table.len());
        }
        self.expect_whole(alloc, first)
    }

    // Each row says what comes of fewer bytes than its number, where a read fails after them. With
    // more of them all is read.
    fn expect_failures(&self, alloc: Global, rows: &[(usize, Expected<'_>)]) -> Result<(), Fail> {
        let failing = self.failing();
        let mut first = 0;
        for (end, expected) in rows {
            for n in first..*end {
                failing.expect(alloc, n, &[*expected])?;
            }
            first = *end;
        }
        failing.expect_whole(alloc, first)
    }

    // The first n bytes of the input are enough, for each n from this one on.
    fn expect_whole(&self, alloc: Global, first: usize) -> Result<(), Fail> {
        let whole = self.whole();
        let length = match self {
            Cutting::Formula(row) => row.formula.len(),
            Cutting::Second(row, _) => row.second.len(),
        };
        for n in first..=length {
            self.expect_cut(alloc, n, (whole.lines, whole.status))?;
        }
        Ok(())
    }
}

// What comes of an input that is cut after each of its bytes.
#[derive(Clone, Copy)]
pub struct Cuts<'a> {
    pub input: Cutting<'a>,
    // Where it ends after n bytes, for each n from 0 on, one table after the other. From there on
    // all is read. Without a table only failed reads are tried.
    pub ends: &'a [&'a [Expected<'a>]],
    // Where a read fails after fewer bytes than the number. From the last one on all is read.
    pub failures: &'a [(usize, Expected<'a>)],
}

pub fn expect_cuts(alloc: Global, cuts: &Cuts<'_>) -> Result<(), Fail> {
    if !cuts.ends.is_empty() {
        cuts.input.expect_ends(alloc, cuts.ends)?;
    }
    cuts.input.expect_failures(alloc, cuts.failures)
}

// What comes of a proof of `E` that is cut.
pub fn expect_proof_cuts(
    alloc: Global,
    row: Row<'_>,
    ends: &[&[Expected<'_>]],
    failures: &[(usize, Expected<'_>)],
) -> Result<(), Fail> {
    let input = Cutting::Second(row, E_SHOWN);
    expect_cuts(
        alloc,
        &Cuts {
            input,
            ends,
            failures,
        },
    )
}
