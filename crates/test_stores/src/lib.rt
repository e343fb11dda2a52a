//! Tests of what clauses, their identifiers and the values of literals are kept in, call by call.
#![tactic(auto)]

#[cfg(test)]
mod tests;
