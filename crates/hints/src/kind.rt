//! What an input is.

use crate::encoding::Encoding;

/// What an input is, as its first bytes show.
#[derive(Clone, Copy, Debug, PartialEq, Eq)]
pub enum Kind {
    Encoded(Encoding),
    Html,
    /// A formula.
    Cnf,
    /// A weighted one.
    Wcnf,
    /// A pseudo-Boolean one.
    Opb,
    /// A proof for VeriPB.
    VeriPb,
    /// A proof with a line `o proof` at its head.
    ProofLine,
    FratBinary,
    DratBinary,
    /// A proof in a binary form that isn't DRAT's.
    OtherBinary,
    FratText,
    /// What MiniSat writes into its result file.
    MinisatResult,
    /// What clasp writes by default.
    ClaspText,
    /// A solver's output.
    Output,
    LratText,
    DratText,
    /// It begins with a number, and is none of those before.
    Number,
    /// It is empty, or has comments and blank lines alone.
    Empty,
}
