//! Rows: what a tool is given, and what it has to write and to answer.

use sat_check::{DratOptions, LratOptions};
use std::alloc::{AllocError, Global};
use test_inputs::Cut;

/// What is asked of a run: by which tool, and with which options.
#[derive(Clone, Copy, Debug, PartialEq, Eq)]
pub enum Request {
    Lrat(LratOptions),
    Drat(DratOptions),
    Model,
}

#[derive(Clone, Copy)]
pub struct Row<'a> {
    pub name: &'a str,
    pub request: Request,
    pub formula: &'a str,
    pub formula_cut: Cut,
    /// A proof, or a solver's output.
    pub second: &'a [u8],
    pub second_cut: Cut,
    /// The report but for its last line, which the status decides. The last line feed is left out
    /// too.
    pub lines: &'a str,
    pub status: u8,
}

impl Row<'_> {
    // The last line of the report. No status but 0 goes with a proof or a model that was verified.
    fn verdict(&self) -> &'static str {
        match (self.request, self.status) {
            (Request::Model, 0) => "s MODEL VERIFIED",
            (Request::Model, _) => "s MODEL NOT VERIFIED",
            (_, 0) => "s VERIFIED",
            (_, _) => "s NOT VERIFIED",
        }
    }

    /// What has to be written.
    pub fn report(&self, alloc: Global) -> Result<String, AllocError> {
        let lines = self.lines;
        let verdict = self.verdict();
        format!(in alloc; "{lines}\n{verdict}\n")
    }
}

/// The tables fill these in. No run has their status.
pub const LRAT: Row<'static> = Row {
    name: "",
    request: Request::Lrat(LratOptions { trace: false }),
    formula: "",
    formula_cut: Cut::Ends,
    second: b"",
    second_cut: Cut::Ends,
    lines: "",
    status: 255,
};

pub const LRAT_TRACED: Row<'static> = Row {
    request: Request::Lrat(LratOptions { trace: true }),
    ..LRAT
};

const PLAIN: DratOptions = DratOptions {
    binary: false,
    trace: false,
    strict: false,
    pr: false,
    keep_units: false,
    seed: 0,
};

// Macros, since a constant's value calls no function. They name the options that are on.
macro_rules! drat {
    ($($option:ident),*) => {
        Request::Drat(DratOptions {
            $($option: true,)*
            ..PLAIN
        })
    };
}

macro_rules! drat_row {
    ($($option:ident),*) => {
        Row {
            request: drat!($($option),*),
            ..LRAT
        }
    };
}

pub const BY_DRAT: Request = drat!();

/// What a proof is answered that lists no set and deletes no clause which a literal follows by, as
/// without these rules.
pub const BY_OTHER_RULES: Request = drat!(pr, keep_units);

pub const BY_BINARY_DRAT: Request = drat!(binary);

pub const DRAT: Row<'static> = drat_row!();

pub const DRAT_TRACED: Row<'static> = drat_row!(trace);

pub const DRAT_STRICT: Row<'static> = drat_row!(strict);

pub const DRAT_KEEP_UNITS_PR: Row<'static> = drat_row!(trace, pr, keep_units);

pub const BY_BINARY: Row<'static> = drat_row!(binary);

pub const BINARY_TRACED: Row<'static> = drat_row!(binary, trace);

pub const MODEL: Row<'static> = Row {
    request: Request::Model,
    ..LRAT
};
