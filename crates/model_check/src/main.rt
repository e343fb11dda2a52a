//! `model-check FORMULA [OUTPUT]`: checks the model in a solver's output against a formula in
//! DIMACS CNF.
#![tactic(auto)]

use filter_io::{Tool, run_program};
use std::process::ExitCode;

fn main(rt: HostRuntime) -> ExitCode {
    run_program(&rt, Tool::Model)
}
