//! The reader of binary DRAT.

use crate::tests::forms::{Form, Step, add, delete, expect_proof};
use cnf_base::{BinaryFault, Fault};
use std::alloc::{AllocError, Global};
use std::test::Fail;
use test_inputs::{Cut, MANY, repeated};

fn expect_bytes(
    alloc: Global,
    bytes: &[u8],
    cut: Cut,
    steps: &[Step<'_>],
    last: Result<bool, Fault>,
) -> Result<(), Fail> {
    expect_proof(alloc, Form::Binary, (bytes, cut), steps, last)
}

fn step_of(alloc: Global, number: &[u8]) -> Result<Vec<u8>, AllocError> {
    let mut all = Vec::new(alloc);
    all.push(b'a')?;
    for byte in number {
        all.push(*byte)?;
    }
    all.push(0)?;
    Ok(all)
}

#[test]
fn literals(rt: HostRuntime) -> Result<(), Fail> {
    for (number, literal) in [
        (b"\x02".as_slice(), 1),
        (b"\x03".as_slice(), -1),
        (b"\x04".as_slice(), 2),
        (b"\x61".as_slice(), -48),
        (b"\x64".as_slice(), 50),
        (b"\x7e".as_slice(), 63),
        (b"\x80\x01".as_slice(), 64),
        (b"\x82\x02".as_slice(), 129),
        (b"\xff\x7f".as_slice(), -8191),
        (b"\x83\x80\x01".as_slice(), -8193),
        (b"\xfe\xff\xff\xff\x01".as_slice(), 268435455),
        (b"\xff\xff\xff\xff\x01".as_slice(), -268435455),
    ] {
        let bytes = step_of(rt.alloc(), number)?;
        let literals = [literal];
        let steps = [add(&literals)];
        expect_bytes(rt.alloc(), bytes.as_slice(), Cut::Ends, &steps, Ok(false))?;
    }
    Ok(())
}

#[test]
fn whole(rt: HostRuntime) -> Result<(), Fail> {
    expect_bytes(rt.alloc(), b"", Cut::Ends, &[], Ok(false))?;
    let bytes = b"a\x02\x05\x82\x02\x00d\x02\x02\x00a\x00d\x00";
    let steps = [add(&[1, -2, 129]), delete(&[1, 1]), add(&[]), delete(&[])];
    expect_bytes(rt.alloc(), bytes, Cut::Ends, &steps, Ok(false))
}

fn expect_faults(
    alloc: Global,
    steps: &[Step<'_>],
    rows: &[(&[u8], BinaryFault, u64)],
) -> Result<(), Fail> {
    for (bytes, kind, byte_no) in rows {
        let fault = Fault::Binary(*kind, *byte_no);
        expect_bytes(alloc, bytes, Cut::Ends, steps, Err(fault))?;
    }
    Ok(())
}

// A fault is given again at each call.
#[test]
fn faults(rt: HostRuntime) -> Result<(), Fail> {
    let rows = [
        (b"A".as_slice(), BinaryFault::BadTag, 1),
        (b"\x00".as_slice(), BinaryFault::BadTag, 1),
        (b"\xe1\x02\x00".as_slice(), BinaryFault::BadTag, 1),
        (b"a\x01\x00".as_slice(), BinaryFault::BadNumber, 2),
        (b"a\x84\x00\x00".as_slice(), BinaryFault::BadNumber, 2),
        (b"d\x02\x80\x00\x00".as_slice(), BinaryFault::BadNumber, 3),
        (
            b"a\x80\x80\x80\x80\x82\x00\x00".as_slice(),
            BinaryFault::BadNumber,
            2,
        ),
        (
            b"a\x80\x80\x80\x80\x02\x00".as_slice(),
            BinaryFault::LiteralTooLarge,
            2,
        ),
        (
            b"a\x02\x80\x80\x80\x80\x80\x80\x80\x80\x80\x80\x01\x00".as_slice(),
            BinaryFault::LiteralTooLarge,
            3,
        ),
        (b"a".as_slice(), BinaryFault::UnterminatedStep, 2),
        (b"a\x04".as_slice(), BinaryFault::UnterminatedStep, 3),
        (b"d\x84".as_slice(), BinaryFault::UnterminatedStep, 3),
        (
            b"d\x80\x80\x80\x80\x80".as_slice(),
            BinaryFault::UnterminatedStep,
            7,
        ),
    ];
    expect_faults(rt.alloc(), &[], &rows)?;
    let rows = [
        (b"a\x04\x00\x00".as_slice(), BinaryFault::BadTag, 4),
        (b"a\x04\x00d\x01".as_slice(), BinaryFault::BadNumber, 5),
        (b"a\x04\x00d".as_slice(), BinaryFault::UnterminatedStep, 5),
    ];
    expect_faults(rt.alloc(), &[add(&[2])], &rows)
}

// Numbers of many groups, which end so.
#[test]
fn long_numbers(rt: HostRuntime) -> Result<(), Fail> {
    for (last, kind, byte_no) in [
        (0, BinaryFault::BadNumber, 2),
        (1, BinaryFault::LiteralTooLarge, 2),
        (0x80, BinaryFault::UnterminatedStep, 100003),
    ] {
        let bytes = repeated(rt.alloc(), b"a", b"\x80", MANY, &[last])?;
        expect_faults(rt.alloc(), &[], &[(bytes.as_slice(), kind, byte_no)])?;
    }
    Ok(())
}

#[test]
fn failed_reads(rt: HostRuntime) -> Result<(), Fail> {
    for bytes in [b"".as_slice(), b"a", b"d\x02", b"a\x82"] {
        let failed = Err(Fault::ReadFailed);
        expect_bytes(rt.alloc(), bytes, Cut::Fails, &[], failed)?;
    }
    let failed = Err(Fault::ReadFailed);
    expect_bytes(
        rt.alloc(),
        b"d\x02\x00",
        Cut::Fails,
        &[delete(&[1])],
        failed,
    )
}
