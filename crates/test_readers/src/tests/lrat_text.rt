//! The reader of LRAT as text.

use crate::tests::forms::{Form, Step, expect_proof};
use cnf_base::{Fault, Place, TextFault};
use proofs::StepKind;
use std::test::Fail;
use test_inputs::Cut;

#[test]
fn two_steps(rt: HostRuntime) -> Result<(), Fail> {
    let steps: [Step<'_>; 2] = [
        (StepKind::Add, 5, &[2], &[1, 2]),
        (StepKind::Add, 6, &[], &[5, 3, 4]),
    ];
    let text = "5 2 0 1 2 0\n6 0 5 3 4 0\n";
    let proof = (text.as_bytes(), Cut::Ends);
    expect_proof(rt.alloc(), Form::Lrat, proof, &steps, Ok(false))
}

#[test]
fn all_kinds(rt: HostRuntime) -> Result<(), Fail> {
    let steps: [Step<'_>; 5] = [
        (
            StepKind::Add,
            9223372036854775807,
            &[268435455, -268435455, -1, -1],
            &[],
        ),
        (StepKind::Delete, 1, &[], &[9223372036854775807, 3, 3]),
        (StepKind::Add, 1, &[], &[-1, 2, 2, -9223372036854775807]),
        (StepKind::Delete, 7, &[], &[]),
        (StepKind::Add, 8, &[], &[]),
    ];
    let text = "9223372036854775807 268435455 -268435455 -1 -1 0 0\n1 d 9223372036854775807 3 3 0\n\
            1 0 -1 2 2 -9223372036854775807 0 7\nd\nc x\n0 8 0 0";
    let proof = (text.as_bytes(), Cut::Ends);
    expect_proof(rt.alloc(), Form::Lrat, proof, &steps, Ok(false))
}

// A fault is given again at each call.
#[test]
fn faults(rt: HostRuntime) -> Result<(), Fail> {
    let steps: [Step<'_>; 1] = [(StepKind::Delete, 5, &[], &[1])];
    let place = Place { line: 2, col: 3 };
    for (text, cut, fault) in [
        (
            "5 d 1 0\n6 ? 0 0\n7 d 2 0\n",
            Cut::Ends,
            Fault::Text(TextFault::BadToken, place),
        ),
        (
            "5 d 1 0\n6 268435456 0 0\n",
            Cut::Ends,
            Fault::Text(TextFault::LiteralTooLarge, place),
        ),
        (
            "5 d 1 0\n6 ",
            Cut::Ends,
            Fault::Text(TextFault::UnterminatedStep, place),
        ),
        ("5 d 1 0\n6 ", Cut::Fails, Fault::ReadFailed),
        ("5 d 1 0 ", Cut::Fails, Fault::ReadFailed),
    ] {
        let proof = (text.as_bytes(), cut);
        expect_proof(rt.alloc(), Form::Lrat, proof, &steps, Err(fault))?;
    }
    Ok(())
}
