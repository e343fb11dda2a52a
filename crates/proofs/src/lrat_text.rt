//! LRAT as text.

mod moves;
mod part;

use crate::text::TextReader;
use part::LratPart;

/// A proof in LRAT as text.
pub type LratText<R> = TextReader<R, LratPart>;
