//! The literals that are true, and what is left of a clause under them.
#![tactic(auto)]

mod assignment;
mod dense;
mod left;
mod literal_set;
mod part;
mod trail;
mod truths;
mod value;

pub use assignment::{Assignment, first_non_false_under, is_false_under, is_true_under};
pub use dense::Dense;
pub use left::Left;
pub use literal_set::LiteralSet;
pub use part::{Except, Part, Unless, UnlessListed, Whole};
pub use trail::Trail;
pub use truths::{Truths, left_of};
pub use value::Value;
