//! What each byte does to a step of binary DRAT: tags, the groups of numbers, the end.

ghost use Rattle.std.specs.Prelude.{◌≡◌, ℕ, ◌<◌, List, [], ◌∷◌, ◌++◌};
ghost use Rattle.proofs.specs.Binary.{BinarySpot, binary_move_of, tag_move, group_move};
ghost use Rattle.proofs.specs.Binary.{binary_number_move};
ghost use Rattle.proofs.specs.Code.BinaryMoves.{KeepsGroups, IsAt, MovesBinary};

use super::groups::Groups;
use super::part::BinaryPart;
use super::stopped::Stopped;
use crate::StepBuf;
use crate::moved::Moved;
use cnf_base::{BinaryFault, Lit, Number};

/// Puts the byte with this number into the step.
pub fn move_on(
    part: BinaryPart,
    step: &mut StepBuf,
    byte_no: u64,
    byte: u8,
) -> Result<Moved<BinaryPart>, Stopped>
    ensures { (spot : BinarySpot) → IsAt part spot →
        MovesBinary result (binary_move_of spot step.old byte_no byte) step.new }
{
    match part {
        BinaryPart::Tag => take_tag(step, byte_no, byte),
        BinaryPart::Literals => {
            if byte == 0 {
                return Ok(Moved::Complete);
            }
            take_group(Groups::new(byte_no), step, byte)
        }
        BinaryPart::Number(groups) => take_group(groups, step, byte),
    }
}

fn take_tag(step: &mut StepBuf, byte_no: u64, byte: u8) -> Result<Moved<BinaryPart>, Stopped>
    ensures { MovesBinary result (tag_move step.old byte_no byte) step.new }
{
    match byte {
        b'a' => {}
        b'd' => step.delete(),
        _ => return Err(Stopped::Binary(BinaryFault::BadTag, byte_no)),
    }
    Ok(Moved::To(BinaryPart::Literals))
}

// One more byte of a number.
fn take_group(groups: Groups, step: &mut StepBuf, byte: u8) -> Result<Moved<BinaryPart>, Stopped>
    ensures { (bytes : List ℕ) → KeepsGroups groups bytes →
        MovesBinary result (group_move step.old groups.first bytes byte) step.new }
{
    let groups = groups.with(byte);
    if byte >= 128 {
        return Ok(Moved::To(BinaryPart::Number(groups)));
    }
    take_number(groups, step, byte)
}

// A whole number, with its last byte.
fn take_number(groups: Groups, step: &mut StepBuf, last: u8) -> Result<Moved<BinaryPart>, Stopped>
    ensures { MovesBinary result (binary_number_move step.old groups.first last groups.value)
        step.new }
{
    if last == 0 || groups.value <= 1 {
        return Err(Stopped::Binary(BinaryFault::BadNumber, groups.first));
    }
    if groups.value > 2 * u64::from(Lit::MAX_VAR) + 1 {
        return Err(Stopped::Binary(BinaryFault::LiteralTooLarge, groups.first));
    }
    let number = Number {
        is_negative: groups.value % 2 == 1,
        size: groups.value / 2,
    };
    let Some(lit) = Lit::from_number(number) else {
        return Err(Stopped::Binary(BinaryFault::BadNumber, groups.first));
    };
    if step.push_literal(lit).is_err() {
        return Err(Stopped::OutOfMemory);
    }
    Ok(Moved::To(BinaryPart::Literals))
}
