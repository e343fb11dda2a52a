//! Each tool, as the words of its command line ask for it.
//!
//! A program ends when its check has, and the system takes all its memory at once. To free clause
//! by clause and list by list before would take up to a twentieth of its time. So the session is
//! left.

ghost use Rattle.sat_check.specs.Options.{drat_options, lrat_options};
ghost use Rattle.sat_check.specs.Runs.{RunsDrat, RunsLrat, DratStepsVerify, LratStepsVerify};
ghost use Rattle.sat_check.specs.Theorem.{ShowsUnsatisfiable};

use crate::drat::run_drat_kept;
use crate::lrat::run_lrat_kept;
use crate::{Args, Checked, DratOptions, LratOptions};
use cnf_base::In;
use std::alloc::Global;
use std::mem::ManuallyDrop;
use writers::Out;

/// What `drat-forward` does with its inputs: [`run_drat`](crate::run_drat) by the options that the
/// words ask for, and why it ended so. The memory of its clauses is not given back.
pub fn drat_forward<F: In, P: In, O: Out>(
    alloc: Global,
    args: &Args,
    seed: u64,
    formula: &mut F,
    proof: &mut P,
    out: &mut O,
) -> Checked
    ensures runs { RunsDrat (drat_options args.now seed) (F.shown formula.old) (F.shown formula.new)
        (P.shown proof.old) (P.shown proof.new) (O.held out.old) (O.held out.new)
        (O.has_failed out.old) (O.has_failed out.new) (O.is_flushed out.new) result }
    ensures unsatisfiable { ShowsUnsatisfiable (F.shown formula.old).left result.status
        (O.held out.old) (O.held out.new) }
    ensures steps_verify { DratStepsVerify (drat_options args.now seed) (F.shown formula.old)
        (P.shown proof.old) (P.shown proof.new) result.status (O.held out.old) (O.held out.new) }
{
    let options = DratOptions::of(args, seed);
    let (checked, session) = run_drat_kept(alloc, &options, formula, proof, out);
    let _left = ManuallyDrop::new(session);
    checked
}

/// What `lrat-check` does with its inputs: [`run_lrat`](crate::run_lrat) by the options that the
/// words ask for, and why it ended so. The memory of its clauses is not given back.
pub fn lrat_check<F: In, P: In, O: Out>(
    alloc: Global,
    args: &Args,
    formula: &mut F,
    proof: &mut P,
    out: &mut O,
) -> Checked
    ensures runs { RunsLrat (lrat_options args.now).trace (F.shown formula.old)
        (F.shown formula.new) (P.shown proof.old) (P.shown proof.new) (O.held out.old)
        (O.held out.new) (O.has_failed out.old) (O.has_failed out.new) (O.is_flushed out.new)
        result }
    ensures unsatisfiable { ShowsUnsatisfiable (F.shown formula.old).left result.status
        (O.held out.old) (O.held out.new) }
    ensures steps_verify { LratStepsVerify (F.shown formula.old) (P.shown proof.old)
        (P.shown proof.new) result.status (O.held out.old) (O.held out.new) }
{
    let (checked, session) = run_lrat_kept(alloc, &LratOptions::of(args), formula, proof, out);
    let _left = ManuallyDrop::new(session);
    checked
}
