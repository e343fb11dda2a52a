//! Long inputs.

use std::alloc::{AllocError, Global};

/// How often the long inputs have what they repeat: it makes more than a piece that is read at
/// once.
pub const MANY: usize = 100000;

/// These bytes so many times, with others before and after them.
pub fn repeated(
    alloc: Global,
    before: &[u8],
    bytes: &[u8],
    times: usize,
    after: &[u8],
) -> Result<Vec<u8>, AllocError> {
    let mut all = before.to_vec(alloc)?;
    for _ in 0..times {
        all.extend_from_slice(bytes)?;
    }
    all.extend_from_slice(after)?;
    Ok(all)
}
