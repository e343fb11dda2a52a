//! Checks of models.

mod cuts;
mod failed_reads;
mod failing_writers;
