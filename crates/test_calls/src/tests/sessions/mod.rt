//! Sessions, call by call.

mod common;
mod drat;
mod lrat;
