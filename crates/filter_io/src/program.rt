//! A program, from its start to its exit status.

ghost use Rattle.std.specs.Prelude.{◌≡◌};
ghost use Rattle.std.specs.Process.{exit_status};
ghost use Rattle.filter_io.specs.Endings.{status_of};
ghost use Rattle.report.specs.Status.{code_of};

use crate::host::{Host, standard_input};
use crate::output::{Output, standard_output};
use crate::progress::Progress;
use crate::run::{Ended, run_tool};
use crate::system::System;
use crate::tell::{tell, tell_no_check};
use crate::words::words_of;
use sat_check::{ArgsFault, Status, Tool};
use std::process::ExitCode;

/// The program of this tool: does what the words of its command line ask, and gives the exit status
/// of that.
pub fn run_program(rt: &HostRuntime, tool: Tool) -> ExitCode {
    let progress = Progress::new(rt, tool.name());
    let host = Host::new(rt, &progress);
    let ended = run_here(rt, &host, &progress, tool);
    progress.clear();
    match &ended {
        Ok(ended) => tell(rt, tool, ended),
        Err(fault) => tell_no_check(rt, tool, fault),
    }
    exit_code(&ended)
}

// Runs the tool on this machine's words, standard input and standard output.
fn run_here<'a>(
    rt: &'a HostRuntime,
    host: &'a Host<'a>,
    progress: &'a Progress<'a>,
    tool: Tool,
) -> Result<Ended<'a, Host<'a>>, ArgsFault> {
    let words = words_of(rt, tool)?;
    let standard = standard_input(rt);
    let Ok(out) = standard_output(rt) else {
        return Err(ArgsFault::OutOfMemory);
    };
    let mut out = Output::new(out, progress);
    run_tool(host, tool, words.as_slice(), standard, &mut out)
}

/// The exit status: that of the check, or why there was none.
pub fn exit_code<S: System>(ended: &Result<Ended<'_, S>, ArgsFault>) -> ExitCode
    ensures { exit_status result ≡ code_of (status_of ended.now) }
{
    let status = match ended {
        Ok(ended) => ended.checked.status,
        Err(ArgsFault::Words(_)) => Status::Usage,
        Err(ArgsFault::OutOfMemory) => Status::OutOfMemory,
    };
    ExitCode::from(status.code())
}
