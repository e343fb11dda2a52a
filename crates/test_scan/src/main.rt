//! `drat-forward` by plain passes over all clauses in place of watched literals. On the same words
//! and files it writes the same lines and ends with the same status: `tests/rows.py` compares both.
#![tactic(auto)]

use cnf_base::FromRead;
use propagation::Scan;
use sat_check::{DratOptions, Status, Tool, read_args, run_drat_with};
use std::process::ExitCode;
use std::{env, fs};
use writers::ToWrite;

/// Checks the proof in a file, which the words name.
fn check(rt: &HostRuntime) -> anyhow::Result<Status> {
    let alloc = rt.alloc();
    let words = env::args(rt)?.collect::<Vec<String>>(alloc)?;
    let args = read_args(alloc, Tool::Drat, words.as_slice())?;
    let Some(name) = &args.second else {
        return Ok(Status::Usage);
    };
    let mut formula = FromRead::new(fs::open(rt, args.formula.as_str())?);
    let mut proof = FromRead::new(fs::open(rt, name.as_str())?);
    let mut out = ToWrite::new(rt.stdout());
    let Ok(clauses) = Scan::new(alloc) else {
        return Ok(Status::OutOfMemory);
    };
    let options = DratOptions::of(&args, 0);
    Ok(run_drat_with(alloc, &options, clauses, &mut formula, &mut proof, &mut out))
}

fn main(rt: HostRuntime) -> ExitCode {
    match check(&rt) {
        Ok(status) => ExitCode::from(status.code()),
        Err(_) => ExitCode::from(Status::Usage.code()),
    }
}
