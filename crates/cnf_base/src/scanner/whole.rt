//! Numbers that stand whole in what was read at once, without a look at the source for each byte.
ghost use Rattle.std.specs.Prelude.{◌≡◌, ◌==◌, ◌+◌, ◌*◌, ◌<◌, ◌≤◌, length, take, IfSome, true};
ghost use Rattle.std.specs.Prelude.{if◌then◌else◌, slice_index};
ghost use Rattle.cnf_base.specs.Ahead.{IsWholeNumber};
ghost use Rattle.cnf_base.specs.Code.Eight.{AreFront, unsigned};
ghost use Rattle.cnf_base.specs.Words.{is_digit};
ghost use Rattle.cnf_base.specs.Code.Whole.{GoOn};

use super::eight::front_digits;
use super::is_separator;
use crate::Number;

/// Of a number so many bytes are looked at: a `-`, eight digits and a separator.
pub const ROOM: usize = 10;

// A number that is as great and goes on is read byte by byte, up to `u64::MAX`.
const GREAT: u64 = 1_000_000_000_000_000_000;

/// The number at the front of the bytes, where a separator follows: its length and what it says.
/// Which numbers are negative or 0 can't be foretold, so there is no branch for a `-` or a `0`.
#[inline(always)]
pub fn whole_number(bytes: &[u8]) -> Option<(usize, Number)>
    requires { 0 < length bytes.now }
    ensures { IfSome result (λ r. IsWholeNumber bytes.now r.0 r.1) }
{
    if bytes.len() < ROOM {
        return None;
    }
    let is_negative = bytes[0] == b'-';
    let minus = usize::from(is_negative);
    let lead = bytes[minus];
    if !lead.is_ascii_digit() {
        return None;
    }
    let (count, size) = whole_digits(bytes, is_negative)?;
    if lead == b'0' && count > 1 {
        return None;
    }
    Some((count, Number { is_negative, size }))
}

// The digits at the front of the bytes, where a separator follows. A `-` counts as a 0.
#[inline(always)]
fn whole_digits(bytes: &[u8], is_negative: bool) -> Option<(usize, u64)>
    requires long { 9 ≤ length bytes.now }
    requires sign { is_negative ≡ (slice_index bytes.now 0 == 45) }
    requires lead { is_digit (slice_index bytes.now (if is_negative then 1 else 0)) ≡ true }
    ensures some { IfSome result (λ r. 0 < r.0) }
    ensures digits { IfSome result (λ r. GoOn 0 (unsigned is_negative bytes.now) r.0 r.1) }
{
    let (count, size) = front_digits(bytes, is_negative);
    if count == 0 {
        return None;
    }
    if is_separator(bytes[count]) {
        return Some((count, size));
    }
    long_digits(bytes, is_negative, count, size)
}

// The same where these first digits go on. It stands apart, as the room that it clears for the rest
// would else be cleared for each number.
#[inline(always)]
fn long_digits(bytes: &[u8], is_negative: bool, count: usize, size: u64) -> Option<(usize, u64)>
    requires inside { count ≤ length bytes.now }
    requires front { AreFront (unsigned is_negative bytes.now) count size }
    ensures some { IfSome result (λ r. 0 < r.0) }
    ensures digits { IfSome result (λ r. GoOn 0 (unsigned is_negative bytes.now) r.0 r.1) }
{
    let (more, size) = go_on_long(&bytes[count..], size)?;
    Some((count + more, size))
}

// How many digits go on with the number, where a separator follows, and what it is with them.
#[inline(never)]
fn go_on_long(bytes: &[u8], number: u64) -> Option<(usize, u64)>
    ensures { IfSome result (λ r. GoOn number bytes.now r.0 r.1) }
{
    let mut size = number;
    for (count, byte) in bytes.iter().enumerate() {
        let Some(digit) = digit_of(*byte) else {
            return if is_separator(*byte) {
                Some((count, size))
            } else {
                None
            };
        };
        if size >= GREAT {
            return None;
        }
        size = size * 10 + digit;
    }
    None
}

// The digit that a byte is.
#[inline(always)]
fn digit_of(byte: u8) -> Option<u64>
    ensures digit { IfSome result (λ digit. digit + 48 ≡ byte) }
    ensures small { IfSome result (λ digit. digit ≤ 9) }
{
    let digit = u64::from(byte).wrapping_sub(u64::from(b'0'));
    if digit > 9 {
        return None;
    }
    Some(digit)
}
