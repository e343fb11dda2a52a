//! Tests of propagation and sessions, call by call.
//!
//! The tests below the engines are three crates, so that the gate proves them side by side. One of
//! all tests would be its last task and the longest.
#![tactic(auto)]

#[cfg(test)]
mod tests;
