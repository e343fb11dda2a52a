//! `lrat-check [--trace] FORMULA [PROOF]`: checks a proof in LRAT of a formula in DIMACS CNF.
#![tactic(auto)]

use filter_io::{Tool, run_program};
use std::process::ExitCode;

fn main(rt: HostRuntime) -> ExitCode {
    run_program(&rt, Tool::Lrat)
}
