//! What a run is asked to do.

ghost use Rattle.std.specs.Prelude.{◌≡◌};
ghost use Rattle.sat_check.specs.Options.{drat_options, lrat_options};
ghost use Rattle.sat_check.specs.Report.{rules_of};

use crate::Args;
use steps::DratRules;

/// What a check of an LRAT proof is asked to do.
#[derive(Clone, Copy, Debug, PartialEq, Eq)]
pub struct LratOptions {
    /// Whether each accepted step has a line.
    pub trace: bool,
}

impl LratOptions {
    /// What the words of the command line ask for.
    pub fn of(args: &Args) -> Self
        ensures { result ≡ lrat_options args.now }
    {
        LratOptions { trace: args.trace }
    }
}

/// What a check of a DRAT proof is asked to do.
#[derive(Clone, Copy, Debug, PartialEq, Eq)]
pub struct DratOptions {
    /// Whether the proof is in the binary form.
    pub binary: bool,
    /// Whether each accepted step has a line.
    pub trace: bool,
    /// Whether a deletion of a clause that is not alive is refused.
    pub strict: bool,
    /// Whether an addition may list a set after its clause, by which it may be propagation
    /// redundant (PR).
    pub pr: bool,
    /// Whether a deletion of a live clause that is the reason of a root-level literal is ignored.
    pub keep_units: bool,
    /// Mixed into the hashes of clauses, one number a run. No answer depends on it.
    pub seed: u64,
}

impl DratOptions {
    /// What the words of the command line ask for, with the number that clauses are hashed by.
    pub fn of(args: &Args, seed: u64) -> Self
        ensures { result ≡ drat_options args.now seed }
    {
        DratOptions {
            binary: args.binary,
            trace: args.trace,
            strict: args.strict,
            pr: args.pr,
            keep_units: args.keep_units,
            seed,
        }
    }

    /// The rules that these options ask for.
    pub fn rules(&self) -> DratRules
        ensures { result ≡ rules_of self.now }
    {
        DratRules {
            strict: self.strict,
            pr: self.pr,
            keep_units: self.keep_units,
        }
    }
}
