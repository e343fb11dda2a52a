//! The two inputs of a program.

ghost use Rattle.std.specs.Prelude.{◌≡◌, ℕ, List, Option, false, Some, IfOk, option_map};
ghost use Rattle.std.specs.Prelude.{string_bytes};
ghost use Rattle.command_line.specs.Words.{asked_by, is_read_twice, is_standard};
ghost use Rattle.filter_io.specs.Inputs.{reader};
ghost use Rattle.filter_io.specs.Origins.{left_of, unread};
ghost use Rattle.filter_io.specs.Runs.{Opens};

use crate::input::Input;
use crate::origin::Origin;
use crate::system::System;
use cnf_base::OutOfMemory;
use sat_check::{Args, Tool};
use std::io;

/// An input of a program that runs on this system.
pub type InputOf<'a, S> = Input<'a, <S as System>::File, <S as System>::Standard>;

/// The formula and the second input, before a byte of either is read.
pub(crate) fn open_both<'a, S: System>(
    system: &'a S,
    tool: Tool,
    args: &Args,
    standard: io::Result<S::Standard>,
) -> Result<(InputOf<'a, S>, InputOf<'a, S>), OutOfMemory>
    requires apart { is_read_twice (Some (string_bytes args.now.formula))
        (option_map string_bytes args.now.second) ≡ false }
    ensures formula { IfOk result (λ inputs. Opens (S.holds system.now) (S.may_refuse system.now)
        (left_of S.Standard.remaining standard) (asked_by (Some (string_bytes args.now.formula)))
        (reader inputs.0)) }
    ensures second { IfOk result (λ inputs. Opens (S.holds system.now) (S.may_refuse system.now)
        (left_of S.Standard.remaining standard)
        (asked_by (option_map string_bytes args.now.second)) (reader inputs.1)) }
{
    let formula = asked_by(Some(args.formula.as_str()));
    let second = asked_by(second_name(args));
    match (formula, second) {
        (Some(formula), Some(second)) => {
            let formula = open_file(system, formula)?;
            Ok((formula, open_file(system, second)?))
        }
        (Some(formula), None) => {
            let formula = open_file(system, formula)?;
            Ok((formula, open_standard(system, second_kind(tool), standard)?))
        }
        (None, Some(second)) => {
            let formula = open_standard(system, "formula", standard)?;
            Ok((formula, open_file(system, second)?))
        }
        (None, None) => unreachable!(),
    }
}

// The file of this name.
fn open_file<'a, S: System>(system: &'a S, name: &str) -> Result<InputOf<'a, S>, OutOfMemory>
    ensures { IfOk result (λ input. (standard : Option (List ℕ)) → Opens (S.holds system.now)
        (S.may_refuse system.now) standard (Some name.now) (reader input)) }
{
    let opened = system.open(name);
    let size = match &opened {
        Ok(file) => system.size(file),
        Err(_) => None,
    };
    let origin = Origin::of_file(opened)?;
    Input::new(system.alloc(), origin, system.progress(), size)
}

// Standard input, or why there is none.
fn open_standard<'a, S: System>(
    system: &'a S,
    what: &str,
    standard: io::Result<S::Standard>,
) -> Result<InputOf<'a, S>, OutOfMemory>
    ensures { IfOk result (λ input.
        reader input ≡ unread (left_of S.Standard.remaining standard)) }
{
    let origin = Origin::of_standard(standard)?;
    let progress = system.progress();
    if let Some(progress) = progress {
        progress.begin_standard(what);
    }
    Input::new(system.alloc(), origin, progress, None)
}

// What the second input of a tool is.
fn second_kind(tool: Tool) -> &'static str {
    match tool {
        Tool::Drat | Tool::Lrat => "proof",
        Tool::Model => "output",
    }
}

// The name of a file; none stands for standard input.
fn asked_by(name: Option<&str>) -> Option<&str>
    ensures { option_map (λ name. name.now) result ≡
        asked_by (option_map (λ name. name.now) name.entry) }
{
    match name {
        Some(name) if name != "-" => Some(name),
        _ => None,
    }
}

/// The name of the second input on the command line.
pub(crate) fn second_name(args: &Args) -> Option<&str>
    ensures { option_map (λ name. name.now) result ≡ option_map string_bytes args.now.second }
{
    match &args.second {
        Some(name) => Some(name.as_str()),
        None => None,
    }
}
