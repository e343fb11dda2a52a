//! Literals by the numbers that DIMACS writes.

use cnf_base::Lit;
use std::alloc::Global;
use std::test::Fail;

/// The literal that DIMACS writes so.
pub fn literal(number: i32) -> Result<Lit, Fail> {
    let made = Lit::new(number).ok_or("no literal")?;
    Ok(made)
}

/// The literals that DIMACS writes so.
pub fn literals(alloc: Global, numbers: &[i32]) -> Result<Vec<Lit>, Fail> {
    let mut all = Vec::new(alloc);
    for number in numbers {
        all.push(literal(*number)?)?;
    }
    Ok(all)
}
