//! The tests, and what they share.

mod below;
mod bytes_and_lines;
mod claims;
mod drat_binary;
mod drat_text;
mod forms;
mod formula;
mod literals;
mod lrat_text;
mod step_ends;
mod step_parts;
