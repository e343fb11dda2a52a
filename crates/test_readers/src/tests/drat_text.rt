//! The reader of DRAT as text.

use crate::tests::forms::{Form, Step, add, delete, expect_proof};
use cnf_base::{Fault, Place, TextFault};
use std::alloc::Global;
use std::test::Fail;
use test_inputs::Cut;

fn expect_text(
    alloc: Global,
    text: &str,
    cut: Cut,
    steps: &[Step<'_>],
    last: Result<bool, Fault>,
) -> Result<(), Fail> {
    expect_proof(alloc, Form::Drat, (text.as_bytes(), cut), steps, last)
}

#[test]
fn whole(rt: HostRuntime) -> Result<(), Fail> {
    for (text, steps) in [
        ("", [].as_slice()),
        ("c x\n\n \n", [].as_slice()),
        ("d 1 2 0\n", [delete(&[1, 2])].as_slice()),
        ("d 0", [delete(&[])].as_slice()),
        ("0\n0", [add(&[]), add(&[])].as_slice()),
        ("1 -2 0 d 3 0", [add(&[1, -2]), delete(&[3])].as_slice()),
        (
            "c x\n2\nc 7 0\n-1\n\n0\nd\nc x\n268435455 -268435455\n0\n3 3 -3 0\n",
            [
                add(&[2, -1]),
                delete(&[268435455, -268435455]),
                add(&[3, 3, -3]),
            ]
            .as_slice(),
        ),
    ] {
        expect_text(rt.alloc(), text, Cut::Ends, steps, Ok(false))?;
    }
    Ok(())
}

fn expect_faults(
    alloc: Global,
    steps: &[Step<'_>],
    rows: &[(&str, TextFault, u64, u64)],
) -> Result<(), Fail> {
    for (text, kind, line, col) in rows {
        let place = Place {
            line: *line,
            col: *col,
        };
        let fault = Fault::Text(*kind, place);
        expect_text(alloc, text, Cut::Ends, steps, Err(fault))?;
    }
    Ok(())
}

// A fault is given again at each call.
#[test]
fn faults(rt: HostRuntime) -> Result<(), Fail> {
    let rows = [
        ("1 d 0", TextFault::BadToken, 1, 3),
        ("d d 0", TextFault::BadToken, 1, 3),
        ("d 1 d 0", TextFault::BadToken, 1, 5),
        ("+1 0", TextFault::BadToken, 1, 1),
        ("1 x 0", TextFault::BadToken, 1, 3),
        ("D 1 0", TextFault::BadToken, 1, 1),
        ("d1 0", TextFault::BadToken, 1, 1),
        ("-0", TextFault::BadToken, 1, 1),
        ("268435456 0", TextFault::LiteralTooLarge, 1, 1),
        ("d -268435456 0", TextFault::LiteralTooLarge, 1, 3),
        (
            "1\n18446744073709551616 0",
            TextFault::LiteralTooLarge,
            2,
            1,
        ),
        ("d", TextFault::UnterminatedStep, 1, 2),
        ("d\n", TextFault::UnterminatedStep, 2, 1),
        ("1 \n", TextFault::UnterminatedStep, 2, 1),
    ];
    expect_faults(rt.alloc(), &[], &rows)?;
    let rows = [
        ("2 0\n-1", TextFault::UnterminatedStep, 2, 3),
        ("2 0 3 d 0", TextFault::BadToken, 1, 7),
    ];
    expect_faults(rt.alloc(), &[add(&[2])], &rows)
}

// A token that touches a failed read doesn't count.
#[test]
fn failed_reads(rt: HostRuntime) -> Result<(), Fail> {
    for (text, steps) in [
        ("", [].as_slice()),
        ("1 ", [].as_slice()),
        ("d", [].as_slice()),
        ("d 1 0", [].as_slice()),
        ("d 1 0 ", [delete(&[1])].as_slice()),
    ] {
        let failed = Err(Fault::ReadFailed);
        expect_text(rt.alloc(), text, Cut::Fails, steps, failed)?;
    }
    Ok(())
}
