//! Tests of the literals that wait while others with shorter watch lists are propagated.

use std::test::Fail;
use test_inputs::{expect_equal, expect_true, literal};
use watch_lists::Waiting;

// A literal with a list of less than 64 entries doesn't wait.
#[test]
fn takes_the_shortest_list_first(rt: HostRuntime) -> Result<(), Fail> {
    let mut waiting = Waiting::new();
    expect_true(!waiting.put(literal(1)?, 63))?;
    for (number, entries) in [(2, 200), (-3, 64), (4, 100)] {
        expect_true(waiting.put(literal(number)?, entries))?;
    }
    for number in [-3, 4, 2] {
        expect_equal(waiting.take(), Some(literal(number)?))?;
    }
    expect_equal(waiting.take(), None)
}

#[test]
fn has_room_for_sixteen(rt: HostRuntime) -> Result<(), Fail> {
    let mut waiting = Waiting::new();
    for number in 1..17 {
        expect_true(waiting.put(literal(number)?, 64))?;
    }
    expect_true(!waiting.put(literal(17)?, 64))
}
