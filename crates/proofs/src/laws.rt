//! Laws of reading proofs: printed ones are read back, and grammars say what is read.
//!
//! The functions do nothing: their contracts are the theorems.

ghost use Rattle.proofs.specs.Grammar.{DratIsGrammar, LratIsGrammar, BinaryIsGrammar};
ghost use Rattle.proofs.specs.Printing.{DratIsReadBack, BinaryIsReadBack, LratIsReadBack};
ghost use Rattle.proofs.specs.Printing.{ProofsLookSo};

/// A DRAT proof that is printed as text is read back: exactly its steps, and a clean end.
#[tactic(auto, using(crate::proofs::DratGrammar::drat_read))]
pub fn drat_is_read_back()
    ensures { DratIsReadBack }
{}

/// A DRAT proof that is printed in binary is read back: exactly its steps, and a clean end.
#[tactic(auto, using(crate::proofs::BinaryGrammar::binary_read))]
pub fn binary_is_read_back()
    ensures { BinaryIsReadBack }
{}

/// An LRAT proof that is printed is read back: exactly its steps, and a clean end.
#[tactic(auto, using(crate::proofs::LratGrammar::lrat_read))]
pub fn lrat_is_read_back()
    ensures { LratIsReadBack }
{}

/// What printed texts look like: the laws speak of these examples.
pub fn examples_are_printed()
    ensures { ProofsLookSo }
{}

/// A text is read as DRAT steps, without a fault, exactly where its words are theirs.
#[tactic(auto, using(crate::proofs::DratGrammar::drat_both_ways))]
pub fn drat_is_its_grammar()
    ensures { DratIsGrammar }
{}

/// A text is read as LRAT steps, without a fault, exactly where its words are theirs.
#[tactic(auto, using(crate::proofs::LratGrammar::lrat_both_ways))]
pub fn lrat_is_its_grammar()
    ensures { LratIsGrammar }
{}

/// Bytes are read as binary DRAT steps, without a fault, exactly where they are theirs.
#[tactic(auto, using(crate::proofs::BinaryGrammar::binary_both_ways))]
pub fn binary_is_its_grammar()
    ensures { BinaryIsGrammar }
{}
