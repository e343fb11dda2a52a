//! Bytes out, and lines.
#![tactic(auto)]

mod counted_writer;
mod line_out;
mod output;

pub use line_out::LineOut;
pub use output::{Out, ToWrite, WriteFailed};
