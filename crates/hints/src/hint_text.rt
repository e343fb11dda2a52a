//! A hint as it is told.

use crate::argument::Argument;
use crate::command::Command;
use crate::hint::Hint;
use crate::name::shell_name;
use crate::program::Program;
use command_line::{Args, Tool};
use std::fmt;

/// A hint as it is told of an input: a sentence, and a command in which the files have the names
/// that they were given.
#[derive(Clone, Copy)]
pub struct HintText<'a> {
    pub hint: Hint,
    pub argument: Argument,
    pub tool: Tool,
    pub args: &'a Args,
}

impl HintText<'_> {
    // The program of the command, with its options.
    fn program(&self) -> Program<'_> {
        let again = Program::again(self.tool, self.args);
        let as_text = Program {
            binary: false,
            ..again
        };
        match (self.hint, self.argument) {
            (Hint::Binary, _) => Program {
                binary: true,
                ..again
            },
            (Hint::Text, _) => as_text,
            (Hint::Decode(encoding), Argument::Second) if encoding.is_of_text() => as_text,
            (Hint::ProofLine | Hint::Frat, _) if self.tool == Tool::Drat => as_text,
            (Hint::ProofLine | Hint::Frat | Hint::ReadsAsDrat, _) => Program::bare(Tool::Drat),
            (Hint::ReadsAsLrat, _) => Program::bare(Tool::Lrat),
            (Hint::Witness, _) => Program {
                adds_pr: true,
                ..again
            },
            _ => again,
        }
    }

    // What the second input is called where its name can't be told.
    fn second_word(&self) -> &'static str {
        match self.tool {
            Tool::Drat | Tool::Lrat => "PROOF",
            Tool::Model => "OUTPUT",
        }
    }

    // The name that stands first in the command line, or a word in its place.
    fn formula<'a>(&'a self, word: &'a str) -> &'a str {
        shell_name(Some(self.args.formula.as_str()), word)
    }

    // The name that stands second.
    fn second<'a>(&'a self, word: &'a str) -> &'a str {
        shell_name(self.args.second.as_ref().map(|name| name.as_str()), word)
    }
}

impl fmt::Display for HintText<'_> {
    fn fmt<W: fmt::Write>(&self, f: &mut fmt::Formatter<W>) -> fmt::Result {
        f.write_str(self.hint.sentence())?;
        let Some(command) = self.hint.command() else {
            return Ok(());
        };
        let program = self.program();
        let formula = self.formula("FORMULA");
        let second = self.second(self.second_word());
        match (command, self.argument) {
            (Command::Filter(before, behind), Argument::Formula) => {
                write!(f, ": {before}{formula}{behind} | {program} - {second}")
            }
            (Command::Filter(before, behind), Argument::Second) => {
                write!(f, ": {before}{second}{behind} | {program} {formula}")
            }
            (Command::Solve(before), _) => {
                write!(f, ": {before}{formula} | {program} {formula}")
            }
            (Command::Run, _) => write!(f, ": {program} {formula} {second}"),
            (Command::RunExchanged, _) => {
                let first = self.second("FORMULA");
                let then = self.formula(self.second_word());
                write!(f, ": {program} {first} {then}")
            }
        }
    }
}
