//! Laws of reading formulas and models: printed ones are read back, and grammars say what is read.
//!
//! The functions do nothing: their contracts are the theorems.

ghost use Rattle.dimacs.specs.Grammar.{FormulaIsGrammar, ModelIsGrammar};
ghost use Rattle.dimacs.specs.Printing.{FormulaIsReadBack, ModelIsReadBack, FormulasLookSo};

/// A formula that is printed is read back: its header, exactly its clauses, and no fault.
#[tactic(auto, using(crate::proofs::ReadBack::formula_read))]
pub fn formula_is_read_back()
    ensures { FormulaIsReadBack }
{}

/// A model that is printed is read back: exactly its literals, the last one first.
#[tactic(auto, using(crate::proofs::ReadBack::model_read))]
pub fn model_is_read_back()
    ensures { ModelIsReadBack }
{}

/// A formula is read without a fault exactly where its text is one by the grammar: comments and
/// blank lines aside, first a line `p cnf VARIABLES CLAUSES`, and then, over any number of lines,
/// as many clauses as that says, each its literals and a `0`. What is read is that header and those
/// clauses.
#[tactic(auto, using(crate::proofs::FormulaGrammar::formula_grammar))]
pub fn formula_is_its_grammar()
    ensures { FormulaIsGrammar }
{}

/// A model is read exactly where a solver's output is one by the grammar: comments and blank lines
/// aside, one line `s SATISFIABLE`, and before it or after it lines that begin with `v`; and what
/// follows the `v`s, one line after another, is the literals and a last `0`. What is read is those
/// literals, the last one first.
#[tactic(auto, using(crate::proofs::ModelGrammar::model_grammar))]
pub fn model_is_its_grammar()
    ensures { ModelIsGrammar }
{}

/// What printed texts look like: the laws speak of these examples.
#[tactic(auto, using(crate::proofs::PrintExamples::examples_printed))]
pub fn examples_are_printed()
    ensures { FormulasLookSo }
{}
