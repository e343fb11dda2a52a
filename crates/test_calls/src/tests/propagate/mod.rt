//! Propagation, call by call: the same of both.

mod calls;
mod fresh;
mod lookups;
mod roots;
mod sequences;
mod waiting;
