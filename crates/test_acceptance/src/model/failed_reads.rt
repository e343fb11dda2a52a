//! Reads of a solver's output and of its formula that fail, and inputs that are read no further.

use crate::support::{
    Cut, Engine, G, MODEL, MODELS, MODELS_OUTPUT, Pieces, Row, Stop, Writer, expect_all,
    expect_equal,
};
use std::test::Fail;

// The formula isn't read where the output has a fault, and not past the line feed after the `0` of
// a clause that isn't met.
#[test]
fn reads_no_further(rt: HostRuntime) -> Result<(), Fail> {
    let alloc = rt.alloc();
    let mut formula = Pieces::new(G, 1, Cut::Ends);
    let mut output = Pieces::new("v 1 -1 0\n", 1, Cut::Ends);
    let writer = Writer::new(alloc, usize::MAX, Stop::TakesNone);
    let (code, _) = Engine::Model.run(alloc, &mut formula, &mut output, writer);
    expect_equal(code, 1)?;
    expect_equal(formula.reads, 0)?;
    let mut formula = Pieces::new("p cnf 2 2\n-1 0\n2 0\n", 1, Cut::Ends);
    let mut output = Pieces::of_bytes(MODELS_OUTPUT, 1, Cut::Ends);
    let writer = Writer::new(alloc, usize::MAX, Stop::TakesNone);
    let (code, _) = Engine::Model.run(alloc, &mut formula, &mut output, writer);
    expect_equal(code, 1)?;
    expect_equal(formula.left(), 4)
}

const UNREAD_OUTPUT: Row<'static> = Row {
    formula: G,
    second_cut: Cut::Fails,
    lines: "c cannot read output",
    status: 3,
    ..MODEL
};

const UNREAD_FORMULA: Row<'static> = Row {
    formula_cut: Cut::Fails,
    second: MODELS_OUTPUT,
    lines: "c cannot read formula",
    status: 3,
    ..MODEL
};

// An output that can't be opened is one whose first read fails.
const ROWS: [Row<'static>; 12] = [
    Row {
        name: "neither can be opened",
        formula: "?",
        formula_cut: Cut::Fails,
        ..UNREAD_OUTPUT
    },
    Row {
        name: "no output",
        ..UNREAD_OUTPUT
    },
    Row {
        name: "an output after its `s`",
        second: b"s ",
        ..UNREAD_OUTPUT
    },
    Row {
        name: "a status that touches a failed read",
        second: b"s UNKNOWN",
        ..UNREAD_OUTPUT
    },
    Row {
        name: "a third word that touches a failed read",
        second: b"s SATISFIABLE ?",
        ..UNREAD_OUTPUT
    },
    Row {
        name: "a status before a failed read",
        formula: G,
        second: b"s UNKNOWN ",
        second_cut: Cut::Fails,
        lines: "c output 1:3: no model claimed",
        status: 1,
        ..MODEL
    },
    Row {
        name: "a third word before a failed read",
        formula: G,
        second: b"s SATISFIABLE ? ",
        second_cut: Cut::Fails,
        lines: "c output 1:15: bad line",
        status: 2,
        ..MODEL
    },
    Row {
        name: "no formula",
        formula: "",
        ..UNREAD_FORMULA
    },
    Row {
        name: "a formula after a clause",
        formula: "p cnf 2 2\n1 0\n",
        ..UNREAD_FORMULA
    },
    Row {
        name: "a whole formula without its end",
        formula: MODELS,
        ..UNREAD_FORMULA
    },
    Row {
        name: "a clause before a failed read",
        formula: "p cnf 2 2\n-1 0\n",
        formula_cut: Cut::Fails,
        second: MODELS_OUTPUT,
        lines: "c clause 1 is not satisfied",
        status: 1,
        ..MODEL
    },
    Row {
        name: "a fault before a failed read",
        formula: "p cnf 2 2\n1 3 0\n",
        formula_cut: Cut::Fails,
        second: MODELS_OUTPUT,
        lines: "c formula 2:3: literal out of range",
        status: 2,
        ..MODEL
    },
];

#[test]
fn rows(rt: HostRuntime) -> Result<(), Fail> {
    expect_all(rt.alloc(), &ROWS)
}
