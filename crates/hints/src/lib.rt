//! Hints: what may help whoever gave a program the wrong file, or gave it in the wrong way.
//!
//! A hint is chosen by what the first bytes of an input show it to be, by where it stands in the
//! command line, and by what the check found. Where nothing is recognized, nothing is guessed.
#![tactic(auto)]

mod argument;
mod command;
mod encoding;
mod evidence;
mod finding;
mod first_bytes;
mod header;
mod hint;
mod hint_text;
mod kind;
mod kinds;
mod last_bytes;
mod lines;
mod name;
mod of_formula;
mod of_output;
mod of_proof;
mod program;
mod sample;
mod table;
mod tokens;

pub use argument::Argument;
pub use command_line::{Args, Tool};
pub use encoding::Encoding;
pub use evidence::{Evidence, evidence_of};
pub use finding::Finding;
pub use first_bytes::FirstBytes;
pub use header::{Header, header_in};
pub use hint::Hint;
pub use hint_text::HintText;
pub use kind::Kind;
pub use kinds::kind_of;
pub use last_bytes::LastBytes;
pub use sample::Sample;
pub use table::hint_of;
