//! Literals, by hand.

use cnf_base::{Lit, Number};
use std::test::Fail;
use test_inputs::{expect_equal, expect_equal_at, expect_true_at};

// What DIMACS writes, the variable, and the index.
const LITERALS: [(i32, u32, usize); 8] = [
    (1, 1, 2),
    (-1, 1, 3),
    (2, 2, 4),
    (63, 63, 126),
    (129, 129, 258),
    (-8193, 8193, 16387),
    (268435455, 268435455, 536870910),
    (-268435455, 268435455, 536870911),
];

const NONE: [i32; 5] = [0, 268435456, -268435456, i32::MAX, i32::MIN];

fn expect_literal(row: (i32, u32, usize)) -> Result<(), Fail> {
    let (number, variable, index) = row;
    let made = Lit::new(number);
    expect_true_at(number, made.is_some())?;
    if let Some(lit) = made {
        expect_equal(lit.to_i32(), number)?;
        expect_equal(lit.var(), variable)?;
        expect_equal(lit.index(), index)?;
    }
    Ok(())
}

fn expect_complement(number: i32, complement: i32) -> Result<(), Fail> {
    expect_equal_at(
        number,
        Lit::new(number).map(|l| l.neg()),
        Lit::new(complement),
    )?;
    Ok(())
}

fn expect_from_number(number: i32) -> Result<(), Fail> {
    let named = Lit::from_number(Number {
        is_negative: number < 0,
        size: u64::from(number.unsigned_abs()),
    });
    expect_equal_at(number, named, Lit::new(number))
}

#[test]
fn literals(rt: HostRuntime) -> Result<(), Fail> {
    for row in LITERALS {
        expect_literal(row)?;
        expect_from_number(row.0)?;
    }
    for (number, complement) in [(1, -1), (-1, 1), (-268435455, 268435455)] {
        expect_complement(number, complement)?;
    }
    Ok(())
}

#[test]
fn none(rt: HostRuntime) -> Result<(), Fail> {
    for number in NONE {
        expect_equal_at(number, Lit::new(number), None)?;
        expect_from_number(number)?;
    }
    let past = Number {
        is_negative: false,
        size: 4294967297,
    };
    expect_equal(Lit::from_number(past), None)?;
    expect_equal(Lit::MAX_VAR, 268435455)
}
