//! What the words of a command line ask for.
#![tactic(auto)]

mod args;
mod reader;
mod texts;
mod tool;
mod version;

pub use args::{Args, ArgsFault};
pub use reader::read_args;
pub use tool::Tool;
