//! Variables under numbers, in the order in which they are met.
#![tactic(auto)]

mod numbering;
mod recent;

pub use numbering::Numbering;
