//! What may help.

use crate::encoding::Encoding;

const NO_HEADER: &str = "no line 'p cnf VARIABLES CLAUSES' stands before the first number: add it, \
    or name the formula first";

const KEEP_UNITS: &str = "the proof deleted the reason clause of a root-level literal: \
    --keep-units may accept it";

const MODEL_LINES: &str =
    "the lines of a model begin with 'v', and a line 's SATISFIABLE' stands with them";

/// What may help where an input is malformed, or a proof isn't accepted.
#[derive(Clone, Copy, Debug, PartialEq, Eq)]
pub enum Hint {
    // Of either input.
    Decode(Encoding),
    Html,
    Empty,

    // Of the formula.
    Wcnf,
    Opb,
    /// The formula and the proof are exchanged.
    ProofFirst,
    ProofNotFormula,
    OutputNotFormula,
    NoHeader,
    /// It ends as the files of SATLIB do.
    Satlib,

    // Of a proof.
    FormulaNotProof,
    VeriPb,
    ProofLine,
    Frat,
    FratBinary,
    OutputNotProof,
    /// It is in the binary form, and was read as text.
    Binary,
    /// It is text, and was read in the binary form.
    Text,
    /// It is in a binary form, where only text is read.
    OnlyText,
    ReadsAsLrat,
    ReadsAsDrat,
    CutShort,
    KeepUnits,
    /// A step seems to have a witness, which is read only if asked for.
    Witness,

    // Of a solver's output.
    /// The formula and the output are exchanged.
    FormulaSecond,
    MinisatResult,
    ClaspText,
    OtherLines,
    ProofNotOutput,
    ModelLines,
    NoStatusLine,
    NoLastZero,
}

impl Hint {
    /// What is told before a command that may follow.
    pub(crate) fn sentence(self) -> &'static str {
        match self {
            Hint::Decode(encoding) => encoding.sentence(),
            Hint::Html => "this is a web page, not the file that it should be",
            Hint::Empty => "this is empty, or has comments alone",
            Hint::Wcnf => "this is a weighted formula (WCNF), which is not read",
            Hint::Opb => "this is a pseudo-Boolean formula (OPB), which is not read",
            Hint::ProofFirst => "this is a proof, and the formula is named first",
            Hint::ProofNotFormula => "this is a proof, not a formula",
            Hint::OutputNotFormula => "this is a solver's output, not a formula",
            Hint::NoHeader => NO_HEADER,
            Hint::Satlib => "the end is SATLIB's",
            Hint::FormulaNotProof => "this is a formula, not a proof",
            Hint::VeriPb => "this is a proof for VeriPB, which is not read",
            Hint::ProofLine => "the line 'o proof' is no step",
            Hint::Frat => "this is FRAT",
            Hint::FratBinary => "this is FRAT in the binary form, which is not read",
            Hint::OutputNotProof => "this is a solver's output, not its proof",
            Hint::Binary => "this is a proof in the binary form",
            Hint::Text => "this is a proof as text",
            Hint::OnlyText => "this is a proof in a binary form, and LRAT is read as text alone",
            Hint::ReadsAsLrat => "this reads as LRAT",
            Hint::ReadsAsDrat => "this reads as DRAT",
            Hint::CutShort => "the proof ends inside a step, so it may have been cut short",
            Hint::KeepUnits => KEEP_UNITS,
            Hint::Witness => "a step writes its first literal twice, as before a witness",
            Hint::FormulaSecond => "this is a formula, which is named first",
            Hint::MinisatResult => "this is MiniSat's own form",
            Hint::ClaspText => "this is clasp's own form",
            Hint::OtherLines => "other lines stand between",
            Hint::ProofNotOutput => "this is a proof, not a solver's output",
            Hint::ModelLines => MODEL_LINES,
            Hint::NoStatusLine => "the line 's SATISFIABLE' is missing",
            Hint::NoLastZero => "no 0 ends the 'v' lines",
        }
    }
}
