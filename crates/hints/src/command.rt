//! The commands that hints end with.

use crate::hint::Hint;

const MINISAT: &str = "sed 's/^SAT$/s SATISFIABLE/; s/^UNSAT$/s UNSATISFIABLE/; s/^[-0-9]/v &/' ";

/// A command that a hint ends with.
#[derive(Clone, Copy, Debug, PartialEq, Eq)]
pub(crate) enum Command {
    /// The program reads its input through a filter, which stands before the file's name and behind
    /// it.
    Filter(&'static str, &'static str),
    /// The program reads what this makes of the formula.
    Solve(&'static str),
    /// A program is run on the two files.
    Run,
    /// The same with the names exchanged.
    RunExchanged,
}

impl Hint {
    /// The command that it ends with, if any.
    pub(crate) fn command(self) -> Option<Command> {
        match self {
            Hint::Decode(encoding) => Some(Command::Filter(encoding.filter(), "")),
            Hint::Satlib => Some(Command::Filter("sed '/^%/,$d' ", "")),
            Hint::ProofLine => Some(Command::Filter("sed '/^o /d' ", "")),
            Hint::Frat => Some(Command::Filter(
                "sed -n 's/ l .*//; s/^a [0-9]* //p; s/^d [0-9]* /d /p' ",
                "",
            )),
            Hint::MinisatResult => Some(Command::Filter(MINISAT, "")),
            Hint::OtherLines => Some(Command::Filter("grep '^[csv]' ", "")),
            Hint::NoStatusLine => Some(Command::Filter("{ echo s SATISFIABLE; cat ", "; }")),
            Hint::NoLastZero => Some(Command::Filter("{ cat ", "; printf '\\nv 0\\n'; }")),
            Hint::ClaspText => Some(Command::Solve("clasp --outf=1 ")),
            Hint::Binary | Hint::Text | Hint::ReadsAsLrat | Hint::ReadsAsDrat | Hint::Witness =>
                Some(Command::Run),
            Hint::ProofFirst | Hint::FormulaSecond => Some(Command::RunExchanged),
            _ => None,
        }
    }
}
