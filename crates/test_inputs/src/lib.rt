//! What tests read from and write to: readers and a writer in memory,
//! long inputs, and literals; and how they compare what they find.
#![tactic(auto)]

mod asserts;
mod characters;
mod cut;
mod long;
mod numbers;
mod pieces;
mod stop;
mod writer;

pub use asserts::{expect_equal, expect_equal_at, expect_true, expect_true_at, fail_at};
pub use characters::text;
pub use cut::Cut;
pub use long::{MANY, repeated};
pub use numbers::{literal, literals};
pub use pieces::{Bytes, Pieces, SIZES, open};
pub use stop::Stop;
pub use writer::Writer;
