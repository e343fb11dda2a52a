//! Numbers by keys that may be far apart, where 0 is nothing.

ghost use Rattle.std.specs.Prelude.{◌≡◌, ℕ, ◌<◌, ◌≤◌, ◌^◌, IfSome, IfNone};
ghost use Rattle.std.specs.Prelude.{◌==◌, if◌then◌else◌, OnOk, OnErr};
ghost use Rattle.ids.specs.Code.Far.{far_at};
ghost use Rattle.ids.specs.Code.Ids.{IsFirst};

use cnf_base::OutOfMemory;
use std::collections::BTreeMap;

/// The number at a key.
#[inline(never)]
pub(crate) fn far_number(far: &BTreeMap<u64, u32>, key: u64) -> u32
    ensures { result ≡ far_at far.now key }
{
    far.get(&key).copied().unwrap_or(0)
}

/// Puts in the number of a key.
pub(crate) fn put_far(
    far: &mut BTreeMap<u64, u32>,
    key: u64,
    number: u32,
) -> Result<(), OutOfMemory>
    ensures ok { OnOk result ((k : ℕ) → far_at far.new k ≡
        (if k == key then number else far_at far.old k)) }
    ensures err { OnErr result ((k : ℕ) → far_at far.new k ≡ far_at far.old k) }
{
    far.insert(key, number)?;
    Ok(())
}

/// Takes out the number of a key. It takes no memory.
pub(crate) fn take_far(far: &mut BTreeMap<u64, u32>, key: u64) -> u32
    ensures number { result ≡ far_at far.old key }
    ensures rest { (k : ℕ) → far_at far.new k ≡ (if k == key then 0 else far_at far.old k) }
{
    far.remove(&key).unwrap_or(0)
}

/// The least key from `from` on that has a number.
pub(crate) fn first_far(far: &BTreeMap<u64, u32>, from: u64) -> Option<u64>
    ensures some { IfSome result (λ q. IsFirst (far_at far.now) from (2 ^ 64) q) }
    ensures none { IfNone result
        ((k : ℕ) → from ≤ k → k < 2 ^ 64 → far_at far.now k ≡ 0) }
{
    if far.is_empty() {
        return None;
    }
    let mut start = from;
    loop {
        let (key, number) = far.range(start..).next()?;
        // No number is put in as 0, so the first turn is the last.
        if *number != 0 {
            return Some(*key);
        }
        start = key.checked_add(1)?;
    }
}
