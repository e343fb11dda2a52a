//! Whole runs that no program shows: on inputs that are cut at each place, with reads and writes
//! that fail, and by each propagation. What has to come out was worked out by hand. All other rows
//! stand in tests/rows and in examples/worked.txt.
#![tactic(auto)]

#[cfg(test)]
mod drat;
#[cfg(test)]
mod formula;
#[cfg(test)]
mod lrat;
#[cfg(test)]
mod model;
#[cfg(test)]
mod support;
