//! The room for one piece of an input: 65536 bytes, made before the source.

ghost use Rattle.std.specs.Prelude.{◌≡◌, IfOk, length};

use crate::OutOfMemory;
use std::alloc::Global;

const SIZE: usize = 65536;

/// The room of a source, 65536 bytes. It is made before there is a source, so that the source
/// itself takes no memory.
#[derive(Drop)]
pub struct Piece {
    pub(crate) bytes: Vec<u8>,
    ghost size: { length bytes.items ≡ 65536 },
}

impl Piece {
    /// Room in which nothing was read.
    pub fn new(alloc: Global) -> Result<Self, OutOfMemory> {
        let bytes = vec![in alloc; 0; SIZE]?;
        Ok(Piece { bytes })
    }
}
