//! Tests of what reads and writes, call by call: literals, lines, formulas, proofs and models.
#![tactic(auto)]

#[cfg(test)]
mod tests;
