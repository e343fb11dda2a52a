//! Checks of proofs in LRAT.

mod cuts;
mod failed_reads;
mod failing_writers;
mod reading_no_further;
