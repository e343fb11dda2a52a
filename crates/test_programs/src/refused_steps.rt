//! Where a refused step ends.

use cnf_base::{FromRead, In, Place};
use proofs::StepEnd;
use sat_check::{Args, Checked, DratOptions, Status, drat_forward, lrat_check};
use std::alloc::Global;
use std::test::Fail;
use test_inputs::{Cut, Pieces, SIZES, Stop, Writer, expect_equal};
use test_rows::{
    BY_BINARY_DRAT, DRAT, DRAT_STRICT, E, E_BINARY, E_DRAT, E_PROOF, G, LRAT, Request,
};
use writers::{Out, ToWrite};

// A request, a formula, a proof, and where the refused step ends.
type Row<'a> = (Request, &'a str, &'a [u8], Option<StepEnd>);

const fn text(line: u64, col: u64) -> Option<StepEnd> {
    Some(StepEnd::Text(Place { line, col }))
}

const fn byte(byte_no: u64) -> Option<StepEnd> {
    Some(StepEnd::Byte(byte_no))
}

// Words without options, but for the trace.
fn plain(alloc: Global, trace: bool) -> Args {
    Args {
        binary: false,
        trace,
        strict: false,
        pr: false,
        keep_units: false,
        formula: String::new(alloc),
        second: None,
    }
}

// The words that ask for these options.
fn words_for(alloc: Global, options: &DratOptions) -> Args {
    let mut args = plain(alloc, options.trace);
    args.binary = options.binary;
    args.strict = options.strict;
    args.pr = options.pr;
    args.keep_units = options.keep_units;
    args
}

fn run_placed<F: In, P: In, O: Out>(
    alloc: Global,
    request: Request,
    formula: &mut F,
    proof: &mut P,
    out: &mut O,
) -> Checked {
    match request {
        Request::Lrat(options) => {
            lrat_check(alloc, &plain(alloc, options.trace), formula, proof, out)
        }
        Request::Drat(options) => {
            let args = words_for(alloc, &options);
            drat_forward(alloc, &args, options.seed, formula, proof, out)
        }
        Request::Model => Checked {
            status: Status::Usage,
            refused: None,
            literal_lost: false,
            fault: None,
            unmet: None,
        },
    }
}

fn run_on_pieces(
    alloc: Global,
    request: Request,
    formula: Pieces<'_>,
    proof: Pieces<'_>,
) -> Checked {
    let mut formula = FromRead::new(formula);
    let mut proof = FromRead::new(proof);
    let mut out = ToWrite::new(Writer::new(alloc, usize::MAX, Stop::TakesNone));
    run_placed(alloc, request, &mut formula, &mut proof, &mut out)
}

fn expect_ends(alloc: Global, rows: &[Row<'_>], cut: Cut, status: Status) -> Result<(), Fail> {
    for (request, formula, proof, end) in rows {
        for size in SIZES {
            let formula = Pieces::new(formula, size, Cut::Ends);
            let proof = Pieces::of_bytes(proof, size, cut);
            let checked = run_on_pieces(alloc, *request, formula, proof);
            expect_equal(checked.status, status)?;
            expect_equal(checked.refused, *end)?;
        }
    }
    Ok(())
}

// The place is that of the step's last `0`, also where comments and blank lines stand before it or
// in it.
#[test]
fn refused(rt: HostRuntime) -> Result<(), Fail> {
    let rows = [
        (DRAT.request, G, b"-1 3 0\n?\n".as_slice(), text(1, 6)),
        (DRAT.request, G, b"3 -1 0 0\n".as_slice(), text(1, 8)),
        (
            DRAT.request,
            G,
            b"c 9 0\r\n\r\n-1\r\nc 0\n\t3\r\n\n 0 7 0\r\n".as_slice(),
            text(7, 2),
        ),
        (DRAT_STRICT.request, G, b"d 1 3 0".as_slice(), text(1, 7)),
        (BY_BINARY_DRAT, G, b"a\x03\x06\x00".as_slice(), byte(4)),
        (
            BY_BINARY_DRAT,
            G,
            b"a\x06\x03\x00a\x00a".as_slice(),
            byte(6),
        ),
        (LRAT.request, E, b"5 2 0 1 0\n".as_slice(), text(1, 9)),
        (
            LRAT.request,
            E,
            b"5 2 0 1 2 0\n6\n0 5 0\n7 0 0\n".as_slice(),
            text(3, 5),
        ),
    ];
    expect_ends(rt.alloc(), &rows, Cut::Ends, Status::NotVerified)
}

fn expect_none(
    alloc: Global,
    runs: &[(Request, &str, &[u8])],
    cut: Cut,
    status: Status,
) -> Result<(), Fail> {
    for (request, formula, proof) in runs {
        expect_ends(alloc, &[(*request, *formula, *proof, None)], cut, status)?;
    }
    Ok(())
}

#[test]
fn none_is_refused(rt: HostRuntime) -> Result<(), Fail> {
    let alloc = rt.alloc();
    let verified: [(Request, &str, &[u8]); 4] = [
        (DRAT.request, E, E_DRAT),
        (BY_BINARY_DRAT, E, E_BINARY),
        (LRAT.request, E, E_PROOF),
        (LRAT.request, "p cnf 0 1\n0\n", b"?"),
    ];
    expect_none(alloc, &verified, Cut::Ends, Status::Verified)?;
    let without_empty_clause: [(Request, &str, &[u8]); 3] = [
        (DRAT.request, G, b"3 -1 0\n"),
        (BY_BINARY_DRAT, G, b""),
        (LRAT.request, E, b"5 2 0 1 2 0\n"),
    ];
    expect_none(alloc, &without_empty_clause, Cut::Ends, Status::NotVerified)?;
    let malformed: [(Request, &str, &[u8]); 4] = [
        (DRAT.request, G, b"3 -1 0\n-1\n"),
        (BY_BINARY_DRAT, G, b"a\x06\x03\x00A"),
        (LRAT.request, E, b"5 2 0 1 2 0\n?\n"),
        (DRAT.request, "p cnf 1 1\n", b"1 0\n"),
    ];
    expect_none(alloc, &malformed, Cut::Ends, Status::Malformed)?;
    let unread: [(Request, &str, &[u8]); 1] = [(DRAT.request, G, b"3 -1 0\n0")];
    expect_none(alloc, &unread, Cut::Fails, Status::ReadFailed)
}
