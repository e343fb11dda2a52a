//! The three tools.

ghost use Rattle.std.specs.Prelude.{◌≡◌};
ghost use Rattle.command_line.specs.Texts.{name_of};

/// A tool, each of which has its own command line.
#[derive(Clone, Copy, Debug, PartialEq, Eq)]
pub enum Tool {
    /// `drat-forward [--binary] [--trace] [--strict] [--pr] [--keep-units] FORMULA [PROOF]`
    Drat,
    /// `lrat-check [--trace] FORMULA [PROOF]`
    Lrat,
    /// `model-check FORMULA [OUTPUT]`
    Model,
}

impl Tool {
    /// The name of its program.
    pub fn name(self) -> &'static str
        ensures { result.now ≡ name_of self }
    {
        match self {
            Tool::Drat => "drat-forward",
            Tool::Lrat => "lrat-check",
            Tool::Model => "model-check",
        }
    }
}
