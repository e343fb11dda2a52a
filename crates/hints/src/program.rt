//! A program with its options, as a line in a shell has it.

use command_line::{Args, Tool};
use std::fmt;

/// A program with its options.
#[derive(Clone, Copy)]
pub(crate) struct Program<'a> {
    pub(crate) tool: Tool,
    /// The options that are given again, if any are.
    pub(crate) args: Option<&'a Args>,
    /// Whether `--binary` is among them.
    pub(crate) binary: bool,
    /// Whether `--pr` is added.
    pub(crate) adds_pr: bool,
}

impl<'a> Program<'a> {
    /// The tool without options.
    pub(crate) fn bare(tool: Tool) -> Self {
        Program {
            tool,
            args: None,
            binary: false,
            adds_pr: false,
        }
    }

    /// The tool with the options that it was given.
    pub(crate) fn again(tool: Tool, args: &'a Args) -> Self {
        Program {
            args: Some(args),
            binary: args.binary,
            ..Program::bare(tool)
        }
    }
}

impl fmt::Display for Program<'_> {
    fn fmt<W: fmt::Write>(&self, f: &mut fmt::Formatter<W>) -> fmt::Result {
        f.write_str(self.tool.name())?;
        if self.binary {
            f.write_str(" --binary")?;
        }
        if let Some(args) = self.args {
            write_options(f, args)?;
        }
        if self.adds_pr {
            f.write_str(" --pr")?;
        }
        Ok(())
    }
}

// All but `--binary`.
fn write_options<W: fmt::Write>(f: &mut fmt::Formatter<W>, args: &Args) -> fmt::Result {
    for (is_given, option) in [
        (args.trace, " --trace"),
        (args.strict, " --strict"),
        (args.pr, " --pr"),
        (args.keep_units, " --keep-units"),
    ] {
        if is_given {
            f.write_str(option)?;
        }
    }
    Ok(())
}
