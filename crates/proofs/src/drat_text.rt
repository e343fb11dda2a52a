//! DRAT as text.

mod moves;
mod part;

use crate::text::TextReader;
use part::DratPart;

/// A proof in DRAT as text.
pub type DratText<R> = TextReader<R, DratPart>;
