//! Checks of proofs in DRAT. Each row is run with each propagation.

mod cuts;
mod failed_reads;
mod failing_writers;
mod propagations;
