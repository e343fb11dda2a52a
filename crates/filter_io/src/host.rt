//! The machine that a program runs on: the `System` of files.
//!
//! It says of every name that nothing is known, since no contract can name what a file holds. That
//! it opens the file of that name is tested.

ghost use Rattle.std.specs.Prelude.{None, true};

use crate::progress::Progress;
use crate::randomness::seed;
use crate::system::System;
use std::alloc::Global;
use std::fs::{self, File};
use std::io::{self, Stdin};
use std::os::fd::AsFd;

/// The machine that a program runs on. What its files hold no contract can say.
#[derive(Drop)]
pub struct Host<'a> {
    rt: &'a HostRuntime,
    progress: &'a Progress<'a>,
}

impl<'a> Host<'a> {
    /// The machine for a program that tells there how far it is.
    pub fn new(rt: &'a HostRuntime, progress: &'a Progress<'a>) -> Self {
        Host { rt, progress }
    }
}

impl System for Host<'_> {
    type File = File;

    type Standard = Stdin;

    ghost holds = { λ _ _. None };

    ghost may_refuse = { λ _ _. true };

    fn open(&self, name: &str) -> io::Result<File> {
        fs::open(self.rt, name)
    }

    fn size(&self, file: &File) -> Option<u64> {
        match file.metadata() {
            Ok(data) if data.is_file() => Some(data.len()),
            _ => None,
        }
    }

    fn progress(&self) -> Option<&Progress<'_>> {
        Some(self.progress)
    }

    fn alloc(&self) -> Global {
        self.rt.alloc()
    }

    fn seed(&self) -> u64 {
        seed(self.rt)
    }
}

/// Standard input, or why it can't be read: a descriptor that is closed has no second one. This is
/// asked before a file is opened, which would take its number.
pub(crate) fn standard_input(rt: &HostRuntime) -> io::Result<Stdin> {
    let stdin = rt.stdin();
    let _second = stdin.as_fd().try_clone_to_owned()?;
    Ok(stdin)
}
