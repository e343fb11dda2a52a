//! Bytes as text.

use std::alloc::{AllocError, Global};

/// The text of the bytes, each of them as one character.
pub fn text(alloc: Global, bytes: &[u8]) -> Result<String, AllocError> {
    let mut all = String::new(alloc);
    for byte in bytes {
        all.push(char::from(*byte))?;
    }
    Ok(all)
}
