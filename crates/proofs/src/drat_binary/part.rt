//! Where a byte of a binary DRAT step stands: at the tag, before a number, or inside one.

use super::groups::Groups;

/// Where a byte of a step stands.
#[derive(Clone, Copy)]
pub enum BinaryPart {
    Tag,
    Literals,
    Number(Groups),
}
