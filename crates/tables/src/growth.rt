//! How an array by key grows, so that a few far keys take little memory.

ghost use Rattle.std.specs.Prelude.{◌<◌, ◌≤◌, IfSome};

/// The key past the greatest one.
pub(crate) const KEYS: usize = 4294967296;

/// A key below this is near, however few were met.
const NEAR: usize = 131072;

/// So is one below so many times the number of far keys, and `NEAR`.
const SPARSE: usize = 8;

/// And one that is no further behind the end of the array. That comes to have as many keys behind
/// it, or a sixteenth of its length, so that it seldom grows where keys are met one by one.
const STEP: usize = 16;

/// How long an array of this length becomes for a key behind its end; none where the key is far.
pub(crate) fn len_for(key: u32, len: usize, far: usize) -> Option<usize>
    ensures { IfSome result (λ n. (key < n) × (n ≤ 4294967296)) }
{
    let sparse = far.saturating_mul(SPARSE).saturating_add(NEAR);
    let dense = len.saturating_add(STEP);
    if (key as usize) < sparse.max(dense) {
        let more = STEP.max(len / STEP);
        Some((key as usize).saturating_add(more).min(KEYS))
    } else {
        None
    }
}
