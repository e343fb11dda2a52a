//! The reader of the words.

ghost use Rattle.std.specs.Prelude.{◌≡◌, ◌≤◌, ◌||◌, codes, false, length};
ghost use Rattle.std.specs.Prelude.{string_bytes, true};
ghost use Rattle.std.specs.Prelude.{IfErr, IfOk, Some, option_map};
ghost use Rattle.std.specs.List.{list_all};
ghost use Rattle.clap.specs.Words.{app_of, rule_of};
ghost use Rattle.command_line.specs.Asked.{IsAsked};
ghost use Rattle.command_line.specs.Code.Commands.{command_of, flag_rule, formula_rule};
ghost use Rattle.command_line.specs.Code.Commands.{new_command, second_rule, with_files};
ghost use Rattle.command_line.specs.Words.{Accepts, end_mark, is_among, is_empty_word};
ghost use Rattle.command_line.specs.Words.{is_known, is_read_twice, is_some_empty, names};
ghost use Rattle.command_line.specs.Words.{said_by};

use crate::texts::{DRAT_PURPOSE, LRAT_PURPOSE, MODEL_PURPOSE, fault_from, wrong_words};
use crate::version::VERSION;
use crate::{Args, ArgsFault, Tool};
use clap::{Arg, ArgAction, Command};
use std::alloc::{AllocError, Global};

/// What is shown of a proof that may be named.
const PROOF: &str = "The proof ('-' or absent: standard input)";

/// What is shown of a solver's output that may be named.
const OUTPUT: &str = "The solver's output ('-' or absent: standard input)";

/// The flag `--name`.
fn flag<'a>(alloc: Global, name: &'a str, help: &'a str) -> Arg<'a>
    ensures rule { rule_of result ≡ flag_rule name.entry.now }
    ensures local { result.global ≡ false }
{
    Arg::new(alloc, name)
        .long(name)
        .action(ArgAction::SetTrue)
        .help(help)
}

fn trace<'a>(alloc: Global) -> Arg<'a>
    ensures rule { rule_of result ≡ flag_rule (codes "trace") }
    ensures local { result.global ≡ false }
{
    flag(alloc, "trace", "Show each step as it is checked")
}

/// The file that must be named.
fn formula<'a>(alloc: Global) -> Arg<'a>
    ensures rule { rule_of result ≡ formula_rule }
    ensures local { result.global ≡ false }
{
    Arg::new(alloc, "formula")
        .value_name("FORMULA")
        .action(ArgAction::Set)
        .required(true)
        .help("The formula, in DIMACS CNF ('-': standard input)")
}

/// The file that may be named.
fn second<'a>(alloc: Global, name: &'a str, help: &'a str) -> Arg<'a>
    ensures rule { rule_of result ≡ second_rule }
    ensures local { result.global ≡ false }
{
    Arg::new(alloc, "second")
        .value_name(name)
        .action(ArgAction::Set)
        .help(help)
}

/// A command without arguments, which shows its version where that is asked for, and in its help
/// what it is for.
fn new_command<'a>(alloc: Global, name: &'a str, purpose: &'a str) -> Command<'a>
    ensures { app_of result ≡ new_command name.entry.now }
{
    Command::new(alloc, name).version(VERSION).about(purpose)
}

/// The command with the file that must be named and the one that may be.
fn with_files<'a>(
    alloc: Global,
    command: Command<'a>,
    name: &'a str,
    help: &'a str,
) -> Result<Command<'a>, AllocError>
    ensures { IfOk result (λ c. app_of c ≡ with_files (app_of command.entry)) }
{
    command.arg(formula(alloc))?.arg(second(alloc, name, help))
}

/// The command line of the tool, as `clap` reads it.
fn command<'a>(alloc: Global, tool: Tool) -> Result<Command<'a>, AllocError>
    ensures { IfOk result (λ command. app_of command ≡ command_of tool) }
{
    match tool {
        Tool::Drat => {
            let binary = flag(alloc, "binary", "Read the proof in the binary form");
            let strict = "Refuse a deletion of a clause that is not alive";
            let pr = "Accept additions with a witness, by propagation redundancy (PR)";
            let keep_units = "Ignore deletions of reason clauses of root-level literals";
            let drat = new_command(alloc, "drat-forward", DRAT_PURPOSE)
                .arg(binary)?
                .arg(trace(alloc))?
                .arg(flag(alloc, "strict", strict))?
                .arg(flag(alloc, "pr", pr))?
                .arg(flag(alloc, "keep-units", keep_units))?;
            with_files(alloc, drat, "PROOF", PROOF)
        }
        Tool::Lrat => {
            let lrat = new_command(alloc, "lrat-check", LRAT_PURPOSE).arg(trace(alloc))?;
            with_files(alloc, lrat, "PROOF", PROOF)
        }
        Tool::Model => {
            let model = new_command(alloc, "model-check", MODEL_PURPOSE);
            with_files(alloc, model, "OUTPUT", OUTPUT)
        }
    }
}

/// Whether a name has no letter.
fn is_any_empty(formula: &String, second: &Option<String>) -> bool
    ensures { result ≡ (is_empty_word (string_bytes formula.now) || is_some_empty second.now) }
{
    match second {
        Some(name) => formula.is_empty() || name.is_empty(),
        None => formula.is_empty(),
    }
}

/// Whether both inputs would be standard input.
fn is_read_twice(formula: &String, second: &Option<String>) -> bool
    ensures { result ≡ is_read_twice (Some (string_bytes formula.now))
        (option_map string_bytes second.now) }
{
    match second {
        Some(name) => name.as_str() == "-" && formula.as_str() == "-",
        None => formula.as_str() == "-",
    }
}

/// Reads the words of the tool's command line, which begin with the program's name.
pub fn read_args(alloc: Global, tool: Tool, words: &[String]) -> Result<Args, ArgsFault>
    ensures asked { IfOk result (λ a. IsAsked tool words.now a) }
    ensures names { IfOk result (λ a. is_among (said_by words.now) end_mark ≡ false
        → length (names tool (said_by words.now)) ≤ 2) }
    ensures hyphens { IfOk result (λ a. is_among (said_by words.now) end_mark ≡ false
        → list_all (is_known tool) (said_by words.now) ≡ true) }
    ensures full { IfOk result (λ a.
        (is_empty_word (string_bytes a.formula) || is_some_empty a.second) ≡ false) }
    ensures apart { IfOk result (λ a. is_read_twice (Some (string_bytes a.formula))
        (option_map string_bytes a.second) ≡ false) }
    ensures accepts { IfErr result (λ e. Accepts tool (said_by words.now)
        → e ≡ ArgsFault.OutOfMemory) }
{
    let command = command(alloc, tool)?;
    let matches = match command.try_get_matches_from(words) {
        Ok(matches) => matches,
        Err(error) => return Err(fault_from(alloc, tool, &error)),
    };
    let Some(formula) = matches.get_str("formula") else {
        return Err(wrong_words(alloc, tool, "no formula is named"));
    };
    let formula = formula.to_string(alloc)?;
    let second = match matches.get_str("second") {
        Some(name) => Some(name.to_string(alloc)?),
        None => None,
    };
    if is_any_empty(&formula, &second) {
        return Err(wrong_words(alloc, tool, "a name is empty"));
    }
    if is_read_twice(&formula, &second) {
        return Err(wrong_words(alloc, tool, "both inputs are standard input"));
    }
    Ok(Args {
        binary: matches.get_flag("binary"),
        trace: matches.get_flag("trace"),
        strict: matches.get_flag("strict"),
        pr: matches.get_flag("pr"),
        keep_units: matches.get_flag("keep-units"),
        formula,
        second,
    })
}
