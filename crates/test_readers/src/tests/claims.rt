//! The reader of a solver's output.

use cnf_base::{Fault, FromRead, Lit, OutOfMemory, Place, Source, TextFault};
use dimacs::{Model, read_claim};
use std::alloc::Global;
use std::test::Fail;
use test_inputs::{Cut, Pieces, expect_equal, expect_equal_at, fail_at};

// The claim of an output. The reader is handed back.
fn claim_of(alloc: Global, pieces: &mut Pieces<'_>) -> Result<Model, Fault> {
    match Source::new(alloc, FromRead::new(pieces)) {
        Ok(source) => {
            let (claim, _) = read_claim(alloc, source);
            claim
        }
        Err((OutOfMemory, _)) => Err(Fault::OutOfMemory),
    }
}

fn expect_held(model: &Model, number: i32, held: bool) -> Result<(), Fail> {
    match Lit::new(number) {
        Some(lit) => expect_equal_at(number, model.holds(lit), held)?,
        None => fail_at(number)?,
    }
    Ok(())
}

#[test]
fn listed_literals_hold(rt: HostRuntime) -> Result<(), Fail> {
    for size in [1, 7, 4096] {
        let text = "v 1 -2 1\ns SATISFIABLE\nv -268435455 0\n";
        let mut pieces = Pieces::new(text, size, Cut::Ends);
        match claim_of(rt.alloc(), &mut pieces) {
            Ok(model) => {
                for listed in [1, -2, -268435455] {
                    expect_held(&model, listed, true)?;
                    expect_held(&model, -listed, false)?;
                }
                expect_held(&model, 3, false)?;
                expect_held(&model, -3, false)?;
            }
            Err(_) => fail_at("no claim")?,
        }
    }
    Ok(())
}

// What follows a fault is left in the reader, but for the piece that was read.
#[test]
fn reader_is_handed_back(rt: HostRuntime) -> Result<(), Fail> {
    let mut pieces = Pieces::new("s SATISFIABLE\nv 1 x 2 0\n", 1, Cut::Ends);
    let bad = Fault::Text(TextFault::BadToken, Place { line: 2, col: 5 });
    expect_equal(claim_of(rt.alloc(), &mut pieces).err(), Some(bad))?;
    expect_equal(pieces.left(), 4)
}
