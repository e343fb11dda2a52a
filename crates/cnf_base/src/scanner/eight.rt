//! The digits at the front of eight bytes, which are read as one number. Where a number ends can't
//! be foretold, and a wrong guess costs more than all digits do: so no digit has a branch.
ghost use Rattle.std.specs.Prelude.{◌≡◌, ◌==◌, ◌<◌, ◌≤◌, length, map, ℕ, List, slice_index, true};
ghost use Rattle.std.specs.List.{prefix_len};
ghost use Rattle.cnf_base.specs.Words.{is_digit};
ghost use Rattle.cnf_base.specs.Code.Eight.{packed, from_zero, decimal, unsigned, AreEight, AreFront};

/// A `-`, as its bits differ from those of `0`.
const MINUS: u64 = 29;

/// How many digits stand at the front of eight bytes, and the number that they write, where a `-` in
/// the place of the first one counts as a 0. The first byte is taken for one, and how many follow
/// doesn't wait for what it is: the next token waits for this.
#[inline(always)]
pub fn front_digits(bytes: &[u8], is_negative: bool) -> (usize, u64)
    requires long { 8 ≤ length bytes.now }
    requires sign { is_negative ≡ (slice_index bytes.now 0 == 45) }
    ensures { 0 < result.0 → is_digit (slice_index (unsigned is_negative bytes.now) 0) ≡ true →
        AreFront (unsigned is_negative bytes.now) result.0 result.1 }
{
    let Some(eight) = bytes.first_chunk::<8>() else {
        return (0, 0);
    };
    let packed = u64::from_le_bytes(*eight);
    let word = packed ^ 0x3030_3030_3030_3030;
    let count = digit_count(word >> 8 << 8);
    if count == 0 {
        return (0, 0);
    }
    let digits = word.wrapping_sub(MINUS * u64::from(is_negative));
    (count, value_of(digits << (64 - 8 * count)))
}

// How many of the bytes are digits, from the lowest on: each other one gets its highest bit.
#[inline(always)]
fn digit_count(word: u64) -> usize
    ensures most { result ≤ 8 }
    ensures count { (bytes : List ℕ) → AreEight 256 bytes → word ≡ packed (map from_zero bytes) →
        result ≡ prefix_len is_digit bytes }
{
    let sums = (word & 0x7f7f_7f7f_7f7f_7f7f).wrapping_add(0x7676_7676_7676_7676);
    let others = (sums | word) & 0x8080_8080_8080_8080;
    others.trailing_zeros() as usize / 8
}

// The number that eight digits write, the lowest byte first: they are joined to pairs, these to
// fours, and these to all eight.
#[inline(always)]
fn value_of(digits: u64) -> u64
    ensures { (ds : List ℕ) → AreEight 10 ds → digits ≡ packed ds → result ≡ decimal ds }
{
    let pairs = (digits.wrapping_mul(2561) >> 8) & 0x00ff_00ff_00ff_00ff;
    let fours = (pairs.wrapping_mul(6_553_601) >> 16) & 0x0000_ffff_0000_ffff;
    fours.wrapping_mul(42_949_672_960_001) >> 32
}
