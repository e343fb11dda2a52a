//! Tests of the programs by calls: their words, what they tell beside the report, and where a
//! refused step ends. What they write and answer is tested by rows.
#![tactic(auto)]

#[cfg(test)]
#[cfg(test)]
mod command_lines;
#[cfg(test)]
mod programs;
#[cfg(test)]
mod refused_steps;
