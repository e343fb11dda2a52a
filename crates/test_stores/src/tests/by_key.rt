//! Values by number.

use std::test::Fail;
use tables::ByKey;
use test_inputs::{expect_equal, expect_true};

/// Keys that were reserved, near ones and far ones, each with its own number.
#[test]
fn reads_back(rt: HostRuntime) -> Result<(), Fail> {
    let mut values: ByKey<u32> = ByKey::new(rt.alloc());
    for k in 0..20000u32 {
        values.reserve(30 * k, 9)?;
        expect_equal(values.get(30 * k), Some(9))?;
        values.set(30 * k, k);
        values.reserve(536870911 - 70000 * (k % 100), 9)?;
    }
    for k in 0..20000u32 {
        expect_equal(values.get(30 * k), Some(k))?;
        expect_equal(values.get_or(30 * k, 7), k)?;
    }
    expect_equal(values.get(536870911), Some(9))?;
    expect_equal(values.get(536870910), None)?;
    expect_equal(values.get_or(536870910, 7), 7)
}

/// What is reserved again keeps its value, and the values that are near are those at their keys.
#[test]
fn keeps_values(rt: HostRuntime) -> Result<(), Fail> {
    let mut values: ByKey<u32> = ByKey::new(rt.alloc());
    for key in [1, 200000, u32::MAX] {
        values.reserve(key, 0)?;
        values.set(key, key - 1);
        values.reserve(key, 5)?;
        expect_equal(values.get(key), Some(key - 1))?;
    }
    expect_equal(values.get_or(0, 0), 0)?;
    expect_equal(values.near().get(1).copied(), Some(0))?;
    expect_true(values.all_near().is_none())
}

#[test]
fn hands_out_all_that_is_near(rt: HostRuntime) -> Result<(), Fail> {
    let mut values: ByKey<u32> = ByKey::new(rt.alloc());
    values.reserve(1, 8)?;
    values.set(1, 9);
    match values.all_near() {
        Some(all) => expect_equal(all.get(1).copied(), Some(9))?,
        None => expect_true(false)?,
    }
    Ok(())
}
