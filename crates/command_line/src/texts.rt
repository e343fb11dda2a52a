//! What is told of a command line that asks for no check.

ghost use Rattle.std.specs.Prelude.{◌≡◌};
ghost use Rattle.clap.specs.Words.{kind_of};

use crate::{ArgsFault, Tool};
use clap::Error;
use clap::error::ErrorKind;
use std::alloc::{AllocError, Global};

/// What `drat-forward` does, at the beginning of its help.
pub(crate) const DRAT_PURPOSE: &str = "Checks a DRAT proof that a formula is unsatisfiable";

/// What `lrat-check` does.
pub(crate) const LRAT_PURPOSE: &str = "Checks an LRAT proof that a formula is unsatisfiable";

/// What `model-check` does.
pub(crate) const MODEL_PURPOSE: &str = "Checks the model that a SAT solver claims of a formula";

/// What the statuses mean, at the end of the help.
const STATUSES: &str = "\n\
    Exit status:\n\
    \x20 0  verified\n\
    \x20 1  not verified\n\
    \x20 2  an input is malformed\n\
    \x20 3  a file could not be opened, or a read failed\n\
    \x20 4  out of memory\n\
    \x20 5  a write failed\n\
    \x20 6  the command line is wrong, or asks for help or the version\n";

/// What may follow the program's name.
fn usage_of(tool: Tool) -> &'static str {
    match tool {
        Tool::Drat => "[--binary] [--trace] [--strict] [--pr] [--keep-units] FORMULA [PROOF]",
        Tool::Lrat => "[--trace] FORMULA [PROOF]",
        Tool::Model => "FORMULA [OUTPUT]",
    }
}

/// The refusal that shows the text.
fn refusal(text: Result<String, AllocError>) -> ArgsFault {
    match text {
        Ok(text) => ArgsFault::Words(text),
        Err(_) => ArgsFault::OutOfMemory,
    }
}

/// What an error of `clap` says first, without the word before that and without the tips and the
/// usage after it.
fn first_part(text: &str) -> &str {
    let text = text.strip_prefix("error: ").unwrap_or(text);
    match text.split_once("\n\n") {
        Some((first, _)) => first,
        None => text,
    }
}

/// How a file is named that the word might have meant, where it begins with a hyphen.
fn hyphen_tip(message: &str) -> &'static str {
    if message.starts_with("unexpected argument '-") {
        "A file whose name begins with '-' is given as './-name'.\n"
    } else {
        ""
    }
}

/// What is told of a command line that is wrong: this, how the program is used, and where more is
/// said.
pub(crate) fn wrong_words(alloc: Global, tool: Tool, message: &str) -> ArgsFault {
    let (name, usage, tip) = (tool.name(), usage_of(tool), hyphen_tip(message));
    refusal(format!(in alloc;
        "{name}: {message}\n{tip}Usage: {name} {usage}\nTry '{name} --help'.\n"
    ))
}

/// What to show of an error of `clap`: the help or the version, where that was asked for, and else
/// what is wrong.
pub(crate) fn fault_from(alloc: Global, tool: Tool, error: &Error) -> ArgsFault
    ensures { kind_of error.now ≡ ErrorKind.OutOfMemory → result ≡ ArgsFault.OutOfMemory }
{
    match error.kind() {
        ErrorKind::OutOfMemory => ArgsFault::OutOfMemory,
        ErrorKind::DisplayHelp => {
            let name = tool.name();
            refusal(format!(in alloc; "{error}{STATUSES}\nManual page: man {name}\n"))
        }
        ErrorKind::DisplayVersion => refusal(format!(in alloc; "{error}")),
        ErrorKind::MissingRequiredArgument => wrong_words(alloc, tool, "no formula is named"),
        _ => match format!(in alloc; "{error}") {
            Ok(text) => wrong_words(alloc, tool, first_part(text.as_str())),
            Err(_) => ArgsFault::OutOfMemory,
        },
    }
}
