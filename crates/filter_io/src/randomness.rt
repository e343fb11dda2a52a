//! A number that nobody can foresee.

use std::random::RandomSource;

/// A number of the machine's choice, or 0 where it gives none. Whoever writes the inputs doesn't
/// know it.
pub fn seed(source: &impl RandomSource) -> u64 {
    let mut bytes = [0; 8];
    match source.fill_bytes(&mut bytes) {
        Ok(()) => u64::from_le_bytes(bytes),
        Err(_) => 0,
    }
}
