//! Numbers of binary DRAT that stand whole in what was read at once.
//!
//! How many bytes a number has can't be foretold, and a wrong guess costs more than four bytes do:
//! so no byte has a branch. A variable past 134,217,727, whose numbers are longer, and what isn't
//! the number of a literal are left to the reading by bytes, which tells what is wrong.

ghost use Rattle.std.specs.Prelude.{◌≡◌, ℕ, ◌<◌, ◌≤◌, length, IfSome, OnOk, [], ◌∷◌, slice_index};
ghost use Rattle.proofs.specs.Binary.{BinarySpot, in_step};
ghost use Rattle.proofs.specs.Code.BinaryMoves.{IsAt};
ghost use Rattle.proofs.specs.Code.Whole.{before, spelled, IsWhole, RunsOn};
ghost use Rattle.proofs.specs.Steps.{Step};

use super::part::BinaryPart;
use crate::StepBuf;
use cnf_base::{In, Lit, Number, OutOfMemory, Source};

/// How many bytes of a number are looked at.
const MOST: usize = 4;

/// How many bytes a number has, and the sum of its groups.
#[derive(Clone, Copy)]
struct Spelled {
    count: usize,
    value: u64,
}

// The number whose first byte comes before these, if that doesn't end it.
#[inline(always)]
fn joined(byte: u8, rest: Spelled) -> Spelled
    requires count { rest.count ≤ 16 }
    requires value { rest.value < 72057594037927936 }
    ensures { result ≡ before byte rest }
{
    let more = byte / 128;
    let group = u64::from(byte % 128);
    Spelled {
        count: 1 + usize::from(more) * rest.count,
        value: group + 128 * (u64::from(more) * rest.value),
    }
}

// The number at the front of four bytes; longer than they are where none of them ends it.
#[inline(always)]
fn front(bytes: &[u8]) -> Spelled
    requires { 4 ≤ length bytes.now }
    ensures { result ≡ spelled (slice_index bytes.now 0 ∷ slice_index bytes.now 1
        ∷ slice_index bytes.now 2 ∷ slice_index bytes.now 3 ∷ []) }
{
    let endless = Spelled { count: 1, value: 0 };
    let fourth = joined(bytes[3], endless);
    let third = joined(bytes[2], fourth);
    let second = joined(bytes[1], third);
    joined(bytes[0], second)
}

// The number of a literal at the front of the bytes: how many it has, and the literal.
#[inline(always)]
fn whole_literal(bytes: &[u8]) -> Option<(usize, Lit)>
    ensures { IfSome result (λ r. IsWhole bytes.now r.0 r.1) }
{
    if bytes.len() < MOST {
        return None;
    }
    let Spelled { count, value } = front(bytes);
    if count > MOST || bytes[count - 1] == 0 {
        return None;
    }
    let lit = Lit::from_number(Number {
        is_negative: value % 2 == 1,
        size: value / 2,
    })?;
    Some((count, lit))
}

// Takes the literals that stand whole in what was read.
fn take_whole<R: In>(source: &mut Source<R>, step: &mut StepBuf) -> Result<(), OutOfMemory>
    ensures { (last : Step) × RunsOn in_step source.old source.new step.old last
        × OnOk result (step.new ≡ last) }
{
    while let Some((count, lit)) = whole_literal(source.ahead()) {
        step.push_literal(lit)?;
        source.skip_in_line(count);
    }
    Ok(())
}

/// Takes the literals of a step that stand whole in what was read, where literals are next.
#[inline(always)]
pub fn run_on<R: In>(
    part: BinaryPart,
    source: &mut Source<R>,
    step: &mut StepBuf,
) -> Result<(), OutOfMemory>
    ensures { (spot : BinarySpot) → IsAt part spot → (last : Step)
        × RunsOn spot source.old source.new step.old last × OnOk result (step.new ≡ last) }
{
    match part {
        BinaryPart::Literals => take_whole(source, step),
        BinaryPart::Tag | BinaryPart::Number(_) => Ok(()),
    }
}
