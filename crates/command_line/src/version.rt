//! The version of the programs.

/// What `--version` shows after the program's name. The file `VERSION` has the same, as
/// `tests/manual.sh` finds.
pub const VERSION: &str = "0.2.0";
