//! The words of a command line.

ghost use Rattle.std.specs.Prelude.{◌≡◌, IfOk};
ghost use Rattle.std.specs.Vec.Iter.{into_iter_items};

use sat_check::{ArgsFault, Tool};
use std::alloc::{AllocError, Global};
use std::env;
use std::io::{Error, ErrorKind};

/// The words of the command line, which begin with the program's name.
pub(crate) fn words_of(rt: &HostRuntime, tool: Tool) -> Result<Vec<String>, ArgsFault> {
    let words = match env::args(rt) {
        Ok(words) => words,
        Err(error) => return Err(unread(rt.alloc(), tool, error)),
    };
    Ok(collected(rt.alloc(), words)?)
}

// All of them, in order.
fn collected(alloc: Global, words: env::Args) -> Result<Vec<String>, AllocError>
    ensures { IfOk result (λ all. all.items ≡ into_iter_items words) }
{
    words.collect(alloc)
}

// Why the words can't be read: for want of memory, or since they aren't text, and so no usage.
fn unread(alloc: Global, tool: Tool, error: Error) -> ArgsFault {
    if error.kind() == ErrorKind::OutOfMemory {
        return ArgsFault::OutOfMemory;
    }
    let name = tool.name();
    match format!(in alloc; "{name}: the command line is not text\n") {
        Ok(text) => ArgsFault::Words(text),
        Err(_) => ArgsFault::OutOfMemory,
    }
}
