//! What a program does from its words to its status: one function over any system.

ghost use Rattle.std.specs.Prelude.{◌≡◌, IfOk, IfErr, OnErr};
ghost use Rattle.command_line.specs.Words.{Accepts, said_by};
ghost use Rattle.filter_io.specs.Inputs.{kept, reader};
ghost use Rattle.filter_io.specs.Origins.{left_of};
ghost use Rattle.filter_io.specs.Runs.{Answers, Checks, Opens, RunsTool};
ghost use Rattle.filter_io.specs.Told.{told_of};
ghost use Rattle.hints.specs.Kinds.{Shows};

use crate::inputs::{InputOf, open_both};
use crate::system::System;
use crate::told::{Told, told_of};
use cnf_base::In;
use hints::Evidence;
use sat_check::{
    Args, ArgsFault, Checked, Tool, drat_forward, lrat_check, read_args, run_model_placed,
};
use std::io;
use writers::Out;

/// How a run of a program ended, with its inputs as the check left them.
#[derive(Drop)]
pub struct Ended<'a, S: System> {
    /// What the words asked for.
    pub args: Args,
    pub formula: InputOf<'a, S>,
    /// The proof, or the solver's output.
    pub second: InputOf<'a, S>,
    pub checked: Checked,
    /// What the formula shows of itself, by the bytes that are kept of it.
    pub formula_shows: Evidence,
    /// What the second input shows.
    pub second_shows: Evidence,
    /// What is to be told of it, beside the report.
    pub told: Told,
}

/// Does with its inputs what the words ask of the tool. Where they ask for no check, or there is no
/// memory for one, nothing is written.
pub fn run_tool<'a, S: System, O: Out>(
    system: &'a S,
    tool: Tool,
    words: &[String],
    standard: io::Result<S::Standard>,
    out: &mut O,
) -> Result<Ended<'a, S>, ArgsFault>
    // The words ask for this, and it was done with the inputs that they name.
    ensures runs { IfOk result (λ ended. RunsTool tool words.now ended.args
        (Opens (S.holds system.now) (S.may_refuse system.now)
        (left_of S.Standard.remaining standard)) (reader ended.formula) (reader ended.second)
        (O.held out.old) (O.held out.new) (O.has_failed out.old) (O.has_failed out.new)
        (O.is_flushed out.new) ended.checked) }
    ensures told { IfOk result (λ ended. ended.told ≡
        told_of tool ended.args ended.checked ended.formula_shows ended.second_shows) }
    ensures formula_shows { IfOk result (λ ended.
        Shows (kept ended.formula).first ended.formula_shows.kind) }
    ensures second_shows { IfOk result (λ ended.
        Shows (kept ended.second).first ended.second_shows.kind) }
    ensures no_check { IfErr result (λ fault.
        Accepts tool (said_by words.now) → fault ≡ ArgsFault.OutOfMemory) }
    ensures unwritten { OnErr result (out.new ≡ out.old) }
{
    let args = read_args(system.alloc(), tool, words)?;
    let (mut formula, mut second) = match open_both(system, tool, &args, standard) {
        Ok(inputs) => inputs,
        Err(_) => return Err(ArgsFault::OutOfMemory),
    };
    let checked = check(system, tool, &args, &mut formula, &mut second, out);
    let formula_shows = formula.shows();
    let second_shows = second.shows();
    let told = told_of(tool, &args, checked, &formula_shows, &second_shows);
    Ok(Ended {
        args,
        formula,
        second,
        checked,
        formula_shows,
        second_shows,
        told,
    })
}

// Checks the two inputs, as the arguments ask of the tool.
fn check<S: System, I: In, O: Out>(
    system: &S,
    tool: Tool,
    args: &Args,
    formula: &mut I,
    second: &mut I,
    out: &mut O,
) -> Checked
    ensures checks { Checks tool args.now (I.shown formula.old) (I.shown formula.new)
        (I.shown second.old) (I.shown second.new) (O.held out.old) (O.held out.new)
        (O.has_failed out.old) (O.has_failed out.new) (O.is_flushed out.new) result }
    ensures answers { Answers tool (I.shown formula.old).left (I.shown second.old).left
        result.status (O.held out.old) (O.held out.new) }
{
    let alloc = system.alloc();
    match tool {
        Tool::Drat => drat_forward(alloc, args, system.seed(), formula, second, out),
        Tool::Lrat => lrat_check(alloc, args, formula, second, out),
        Tool::Model => run_model_placed(alloc, formula, second, out),
    }
}
