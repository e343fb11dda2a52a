//! The reader of formulas, clause by clause.

use crate::tests::forms::numbers;
use cnf_base::{Fault, FromRead, OutOfMemory, Place, TextFault};
use dimacs::{ClauseBuf, FormulaReader, Header};
use std::alloc::Global;
use std::test::Fail;
use test_inputs::{Cut, Pieces, SIZES, expect_equal, expect_true, fail_at, open};

type Reader<'a> = FormulaReader<FromRead<Pieces<'a>>>;

// A reader over pieces of this size, or the fault of the header.
fn open_formula<'a>(
    alloc: Global,
    text: &'a str,
    size: usize,
    cut: Cut,
) -> Result<Reader<'a>, Fault> {
    match open(alloc, text.as_bytes(), size, cut) {
        Ok(source) => match FormulaReader::open(source) {
            Ok(reader) => Ok(reader),
            Err((fault, _)) => Err(fault),
        },
        Err(OutOfMemory) => Err(Fault::OutOfMemory),
    }
}

const fn at(kind: TextFault, line: u64, col: u64) -> Fault {
    Fault::Text(kind, Place { line, col })
}

fn expect_next(
    reader: &mut Reader<'_>,
    clause: &mut ClauseBuf,
    next: Result<bool, Fault>,
) -> Result<(), Fail> {
    expect_equal(reader.next(clause), next)
}

// The clauses, and what comes after them at each further call.
fn expect_clauses(
    alloc: Global,
    reader: &mut Reader<'_>,
    clauses: &[&[i32]],
    last: Result<bool, Fault>,
) -> Result<(), Fail> {
    let mut clause = ClauseBuf::new(alloc);
    expect_true(clause.lits().is_empty())?;
    for expected in clauses {
        expect_next(reader, &mut clause, Ok(true))?;
        let found = numbers(alloc, clause.lits())?;
        expect_equal(found.as_slice(), *expected)?;
    }
    for _ in 0..3 {
        expect_next(reader, &mut clause, last)?;
    }
    Ok(())
}

fn expect_header(reader: &Reader<'_>, header: Header) -> Result<(), Fail> {
    expect_equal(reader.header(), header)?;
    expect_equal(reader.vars(), header.vars)?;
    expect_equal(reader.clauses(), header.clauses)
}

fn expect_formula(
    alloc: Global,
    text: &str,
    cut: Cut,
    header: Header,
    clauses: &[&[i32]],
    last: Result<bool, Fault>,
) -> Result<(), Fail> {
    for size in SIZES {
        match open_formula(alloc, text, size, cut) {
            Ok(reader) => {
                let mut reader = reader;
                expect_header(&reader, header)?;
                expect_clauses(alloc, &mut reader, clauses, last)?;
                let _ = reader.release();
            }
            Err(fault) => fail_at(fault)?,
        }
    }
    Ok(())
}

#[test]
fn whole(rt: HostRuntime) -> Result<(), Fail> {
    let alloc = rt.alloc();
    let text = "p cnf 2 4\n1 -2 0\n\nc x\n2\n1 0 0 2 2 -2 0";
    let header = Header {
        vars: 2,
        clauses: 4,
    };
    let clauses = [
        [1, -2].as_slice(),
        [2, 1].as_slice(),
        [].as_slice(),
        [2, 2, -2].as_slice(),
    ];
    expect_formula(alloc, text, Cut::Ends, header, &clauses, Ok(false))?;
    let header = Header {
        vars: 3,
        clauses: 0,
    };
    expect_formula(alloc, "p cnf 3 0", Cut::Ends, header, &[], Ok(false))
}

// What comes after the first clause of three of 1 and 2, and the fault. It is given again at each
// call.
const FAULTS: [(&str, TextFault, u64, u64); 4] = [
    ("1 3 0\n2 0\n", TextFault::LiteralOutOfRange, 3, 3),
    ("? 2 0\n", TextFault::BadToken, 3, 1),
    ("", TextFault::TooFewClauses, 3, 1),
    ("2", TextFault::UnterminatedClause, 3, 2),
];

#[test]
fn faults(rt: HostRuntime) -> Result<(), Fail> {
    let alloc = rt.alloc();
    let header = Header {
        vars: 2,
        clauses: 3,
    };
    let clauses = [[1, 2].as_slice()];
    for (rest, kind, line, col) in FAULTS {
        let text = format!(in alloc; "p cnf 2 3\n1 2 0\n{rest}")?;
        let last = Err(at(kind, line, col));
        expect_formula(alloc, text.as_str(), Cut::Ends, header, &clauses, last)?;
    }
    let text = "p cnf 2 3\n1 2 0\n2";
    let last = Err(Fault::ReadFailed);
    expect_formula(alloc, text, Cut::Fails, header, &clauses, last)
}

fn expect_unopened(alloc: Global, text: &str, cut: Cut, fault: Fault) -> Result<(), Fail> {
    for size in SIZES {
        match open_formula(alloc, text, size, cut) {
            Ok(_) => fail_at(text)?,
            Err(found) => expect_equal(found, fault)?,
        }
    }
    Ok(())
}

#[test]
fn unopened(rt: HostRuntime) -> Result<(), Fail> {
    let alloc = rt.alloc();
    for (text, cut, fault) in [
        ("", Cut::Ends, at(TextFault::BadHeader, 1, 1)),
        ("", Cut::Fails, Fault::ReadFailed),
        ("p cnf 2", Cut::Ends, at(TextFault::BadHeader, 1, 8)),
        (
            "p cnf 268435456 0",
            Cut::Ends,
            at(TextFault::NumberTooLarge, 1, 7),
        ),
    ] {
        expect_unopened(alloc, text, cut, fault)?;
    }
    Ok(())
}
