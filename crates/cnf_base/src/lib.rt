//! Literals, bytes in, and tokens with places.
#![tactic(auto)]

mod counted_reader;
mod fault;
mod input;
pub mod laws;
mod lit;
mod memory;
mod piece;
mod place;
mod scanner;
mod source;
mod token;
mod word;

pub use fault::{BinaryFault, Fault, TextFault};
pub use input::{Ending, FromRead, In, ReadFailed};
pub use lit::Lit;
pub use memory::OutOfMemory;
pub use piece::Piece;
pub use place::Place;
pub use scanner::Scanner;
pub use source::Source;
pub use token::Token;
pub use word::{Number, Word};
