//! Formulas, as the checkers take them.

mod cuts;
mod failed_reads;
