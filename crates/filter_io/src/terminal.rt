//! Which of the three standard streams is a terminal.

use std::fs;
use std::os::unix::fs::{FileTypeExt, MetadataExt};

/// Whether what this name leads to is a terminal: a device of a kind that Linux numbers as one. A
/// system that can't tell has none.
pub(crate) fn is_terminal(rt: &HostRuntime, name: &str) -> bool {
    match fs::metadata(rt, name) {
        Ok(data) => data.file_type().is_char_device() && is_terminal_number(data.rdev()),
        Err(_) => false,
    }
}

// Whether the device with this number is a console, a serial line or a pseudo-terminal.
fn is_terminal_number(device: u64) -> bool {
    matches!((device >> 8) & 0xfff, 4 | 5 | 136..=143)
}
