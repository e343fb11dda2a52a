//! Command lines: what each one asks for, or that it is refused.

use sat_check::{Args, ArgsFault, Tool, read_args};
use std::alloc::Global;
use std::test::Fail;
use test_inputs::{expect_equal, expect_true, expect_true_at};

/// Reads a command line that is written out, its words parted by a space.
fn read(alloc: Global, tool: Tool, line: &str) -> Result<Args, ArgsFault> {
    let mut words = Vec::new(alloc);
    for word in line.split(' ') {
        let text = word.to_string(alloc).map_err(|_| ArgsFault::OutOfMemory)?;
        words.push(text).map_err(|_| ArgsFault::OutOfMemory)?;
    }
    read_args(alloc, tool, words.as_slice())
}

/// Lines that are refused, or ask for a text: it is shown in both cases.
const REFUSED: [(Tool, &str); 26] = [
    (Tool::Drat, "drat-forward --core f.cnf"),
    (Tool::Drat, "drat-forward --trace --trace f.cnf"),
    (Tool::Lrat, "lrat-check f.cnf "),
    (Tool::Model, "model-check "),
    (Tool::Model, "model-check  f.out"),
    (Tool::Drat, "drat-forward --trace"),
    (Tool::Drat, "drat-forward a b c"),
    (Tool::Drat, "drat-forward f.cnf --trace=1"),
    (Tool::Drat, "drat-forward f.cnf --tra"),
    (Tool::Drat, "drat-forward f.cnf -1"),
    (Tool::Lrat, "lrat-check f.cnf --strict"),
    (Tool::Lrat, "lrat-check f.cnf --binary"),
    (Tool::Lrat, "lrat-check --keep-units f.cnf"),
    (Tool::Model, "model-check f.cnf --keep-units"),
    (Tool::Drat, "drat-forward --keep f.cnf"),
    (Tool::Model, "model-check --trace f.cnf"),
    (Tool::Model, "model-check a b c"),
    (Tool::Model, "model-check"),
    // Both inputs would be standard input.
    (Tool::Drat, "drat-forward - --trace -"),
    (Tool::Lrat, "lrat-check -"),
    (Tool::Model, "model-check - -"),
    // They ask for a text.
    (Tool::Drat, "drat-forward --help"),
    (Tool::Lrat, "lrat-check -h"),
    (Tool::Drat, "drat-forward --strict -V"),
    (Tool::Lrat, "lrat-check --version f.cnf p.lrat"),
    (Tool::Model, "model-check f.cnf --version"),
];

/// Whether the line is refused with a text to show.
fn is_refused(alloc: Global, tool: Tool, line: &str) -> bool {
    match read(alloc, tool, line) {
        Err(ArgsFault::Words(text)) => !text.is_empty(),
        Err(ArgsFault::OutOfMemory) => false,
        Ok(_args) => false,
    }
}

fn expect_refused(alloc: Global, rows: &[(Tool, &str)]) -> Result<(), Fail> {
    for (tool, line) in rows {
        expect_true_at(*line, is_refused(alloc, *tool, line))?;
    }
    Ok(())
}

/// What a line says: of the flags binary, trace, strict, pr and keep-units whether they stand in
/// it, the formula, and the second input where one is named.
type Expected<'a> = ([bool; 5], &'a str, Option<&'a str>);

fn expect_args(args: &Args, expected: Expected<'_>) -> Result<(), Fail> {
    let (flags, formula, second) = expected;
    let found = [
        args.binary,
        args.trace,
        args.strict,
        args.pr,
        args.keep_units,
    ];
    expect_equal(found, flags)?;
    expect_equal(args.formula.as_str(), formula)?;
    match &args.second {
        Some(found) => expect_equal(Some(found.as_str()), second)?,
        None => expect_equal(None, second)?,
    }
    Ok(())
}

/// Lines that are read, each with what it says.
const READ: [(Tool, &str, Expected<'static>); 6] = [
    (
        Tool::Drat,
        "drat-forward --strict f.cnf --binary p.drat --trace",
        ([true, true, true, false, false], "f.cnf", Some("p.drat")),
    ),
    (
        Tool::Drat,
        "drat-forward f.cnf --keep-units --pr",
        ([false, false, false, true, true], "f.cnf", None),
    ),
    (
        Tool::Lrat,
        "lrat-check --trace f.cnf",
        ([false, true, false, false, false], "f.cnf", None),
    ),
    (
        Tool::Model,
        "model-check f.cnf model.txt",
        ([false; 5], "f.cnf", Some("model.txt")),
    ),
    (
        Tool::Drat,
        "drat-forward - p.drat",
        ([false; 5], "-", Some("p.drat")),
    ),
    (
        Tool::Model,
        "model-check f.cnf -",
        ([false; 5], "f.cnf", Some("-")),
    ),
];

#[test]
fn reads_what_lines_say(rt: HostRuntime) -> Result<(), Fail> {
    for (tool, line, expected) in &READ {
        let args = read(rt.alloc(), *tool, line)?;
        expect_args(&args, *expected)?;
    }
    Ok(())
}

#[test]
fn shows_texts(rt: HostRuntime) -> Result<(), Fail> {
    expect_refused(rt.alloc(), &REFUSED)
}

#[test]
fn empty_list_has_no_name(rt: HostRuntime) -> Result<(), Fail> {
    let words: [String; 0] = [];
    let read = read_args(rt.alloc(), Tool::Model, words.as_slice());
    expect_true(matches!(&read, Err(ArgsFault::Words(_))))
}
