//! The name of an input as standard error has it.

use std::fmt;

/// What an input is called: its name on the command line, or standard input. Control characters
/// are escaped, so that no name writes a line of its own or moves the cursor.
#[derive(Clone, Copy)]
pub(crate) enum FileName<'a> {
    Named(&'a str),
    StandardInput,
}

impl<'a> FileName<'a> {
    /// The name that a command line gives an input, if it gives one.
    pub(crate) fn given(name: Option<&'a str>) -> Self {
        match name {
            Some(name) if name != "-" => FileName::Named(name),
            _ => FileName::StandardInput,
        }
    }
}

impl fmt::Display for FileName<'_> {
    fn fmt<W: fmt::Write>(&self, f: &mut fmt::Formatter<W>) -> fmt::Result {
        let FileName::Named(name) = *self else {
            return f.write_str("standard input");
        };
        for c in name.chars() {
            if c.is_control() {
                write!(f, "\\u{{{:x}}}", c as u32)?;
            } else {
                write!(f, "{c}")?;
            }
        }
        Ok(())
    }
}
