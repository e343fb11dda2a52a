//! Rows of numbers, where 0 is nothing.

ghost use Rattle.std.specs.Prelude.{◌≡◌, ℕ, ◌<◌, ◌≤◌, length, slice_index, IfSome, IfNone, OnOk};
ghost use Rattle.ids.specs.Code.Ids.{IsFirst};

use cnf_base::OutOfMemory;

/// Fills a row that is shorter up to a length.
pub(crate) fn lengthen(row: &mut Vec<u32>, len: usize) -> Result<(), OutOfMemory>
    ensures same { (k : ℕ) → slice_index row.new.items k ≡ slice_index row.old.items k }
    ensures longer { length row.old.items ≤ length row.new.items }
    ensures ok { OnOk result (len ≤ length row.new.items) }
{
    if row.len() < len {
        row.resize(len, 0)?;
    }
    Ok(())
}

/// The place of the first number from `from` on, and before `to`, that is not 0.
pub(crate) fn first_set(row: &[u32], from: usize, to: usize) -> Option<usize>
    requires { to ≤ length row.now }
    ensures some { IfSome result (λ i. IsFirst (slice_index row.now) from to i) }
    ensures none { IfNone result
        ((k : ℕ) → from ≤ k → k < to → slice_index row.now k ≡ 0) }
{
    for i in from..to {
        if row[i] != 0 {
            return Some(i);
        }
    }
    None
}
