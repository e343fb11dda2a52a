//! The tests, and what they share.

mod propagate;
mod sessions;
