//! What the programs have in common: their words, their files, and how they end.
//!
//! What a tool does from its words to its status is one function over any `System`, `run_tool`. The
//! programs are one function too, `run_program`: it runs the tool on the machine, tells what is to
//! be told, and gives the exit status.
#![tactic(auto)]

mod file_name;
mod host;
mod input;
mod inputs;
mod origin;
mod output;
mod program;
mod progress;
mod randomness;
mod run;
mod system;
mod tell;
mod terminal;
mod told;
mod words;

pub use hints::{Evidence, Hint};
pub use host::Host;
pub use input::Input;
pub use inputs::InputOf;
pub use origin::{Origin, Unopened};
pub use output::Output;
pub use program::{exit_code, run_program};
pub use progress::Progress;
pub use run::{Ended, run_tool};
pub use sat_check::Tool;
pub use system::System;
pub use told::Told;
