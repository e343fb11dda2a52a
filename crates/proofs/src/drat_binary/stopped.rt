//! What ends a step of binary DRAT early: a fault at a byte, or want of memory.

use cnf_base::BinaryFault;

/// Why a byte doesn't take a step on. A fault has the number of its byte.
#[derive(Clone, Copy)]
pub enum Stopped {
    Binary(BinaryFault, u64),
    OutOfMemory,
}
