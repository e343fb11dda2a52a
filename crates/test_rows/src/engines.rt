//! What carries out a row.

use crate::rows::Request;
use cnf_base::{FromRead, In};
use propagation::Scan;
use sat_check::{DratOptions, LratOptions, Status, run_drat, run_drat_with, run_lrat, run_model};
use std::alloc::{AllocError, Global};
use test_inputs::{Pieces, Writer};
use watch::Watch;
use writers::{Out, ToWrite};

/// How a check of DRAT propagates.
#[derive(Clone, Copy, Debug, PartialEq, Eq)]
pub enum Propagation {
    // The one that the program picks.
    Picked,
    Scan,
    Watch,
}

// Each row of DRAT is run with each of these.
const PROPAGATIONS: [Propagation; 3] = [Propagation::Picked, Propagation::Scan, Propagation::Watch];

/// What a run is asked and, for DRAT, how it propagates.
#[derive(Clone, Copy, Debug, PartialEq, Eq)]
pub enum Engine {
    Lrat(LratOptions),
    Drat(DratOptions, Propagation),
    Model,
}

impl Request {
    /// What carries this out: for DRAT, one engine for each propagation.
    pub fn engines(self, alloc: Global) -> Result<Vec<Engine>, AllocError> {
        let mut all = Vec::new(alloc);
        match self {
            Request::Lrat(options) => all.push(Engine::Lrat(options))?,
            Request::Drat(options) => {
                for propagation in PROPAGATIONS {
                    all.push(Engine::Drat(options, propagation))?;
                }
            }
            Request::Model => all.push(Engine::Model)?,
        }
        Ok(all)
    }
}

fn check_drat<F: In, P: In, O: Out>(
    alloc: Global,
    options: &DratOptions,
    propagation: Propagation,
    formula: &mut F,
    proof: &mut P,
    out: &mut O,
) -> Status {
    match propagation {
        Propagation::Picked => run_drat(alloc, options, formula, proof, out),
        Propagation::Scan => match Scan::new(alloc) {
            Ok(clauses) => run_drat_with(alloc, options, clauses, formula, proof, out),
            Err(_) => Status::OutOfMemory,
        },
        Propagation::Watch => match Watch::new(alloc) {
            Ok(clauses) => run_drat_with(alloc, options, clauses, formula, proof, out),
            Err(_) => Status::OutOfMemory,
        },
    }
}

impl Engine {
    /// The status, and what was written.
    pub fn run(
        self,
        alloc: Global,
        formula: &mut Pieces<'_>,
        second: &mut Pieces<'_>,
        writer: Writer,
    ) -> (u8, Vec<u8>) {
        let mut formula = FromRead::new(formula);
        let mut second = FromRead::new(second);
        let mut writer = writer;
        let mut out = ToWrite::new(&mut writer);
        let status = match self {
            Engine::Lrat(options) => {
                run_lrat(alloc, &options, &mut formula, &mut second, &mut out)
            }
            Engine::Drat(options, propagation) => check_drat(
                alloc,
                &options,
                propagation,
                &mut formula,
                &mut second,
                &mut out,
            ),
            Engine::Model => run_model(alloc, &mut formula, &mut second, &mut out),
        };
        (status.code(), writer.taken)
    }
}
