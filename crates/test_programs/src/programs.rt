//! The programs from their words to their status, over a system in memory.

ghost use Rattle.std.specs.Prelude.{Some, false};

use cnf_base::{Fault, Place, TextFault};
use filter_io::{Hint, Progress, System, Told, Tool, run_tool};
use proofs::StepEnd;
use sat_check::{ArgsFault, InputFault, Status};
use std::alloc::Global;
use std::io;
use std::test::Fail;
use test_inputs::{Stop, Writer, expect_equal};
use test_rows::{E, E_DRAT, E_PROOF, MODELS, MODELS_OUTPUT};
use writers::ToWrite;

/// A system with one file, which has any name.
#[derive(Drop)]
struct OneFile<'a> {
    alloc: Global,
    file: &'a [u8],
}

impl<'a> System for OneFile<'a> {
    type File = &'a [u8];

    type Standard = &'a [u8];

    ghost holds = { λ s _. Some s.file.now };

    ghost may_refuse = { λ _ _. false };

    fn open(&self, _name: &str) -> io::Result<&'a [u8]> {
        Ok(self.file)
    }

    fn size(&self, file: &&'a [u8]) -> Option<u64> {
        Some(file.len() as u64)
    }

    fn progress(&self) -> Option<&Progress<'_>> {
        None
    }

    fn alloc(&self) -> Global {
        self.alloc
    }

    fn seed(&self) -> u64 {
        1
    }
}

fn words_of(alloc: Global, line: &str) -> Result<Vec<String>, Fail> {
    let mut words = Vec::new(alloc);
    for word in line.split(' ') {
        words.push(word.to_string(alloc)?)?;
    }
    Ok(words)
}

// A run of a program on its words.
#[derive(Clone, Copy)]
struct Program<'a> {
    tool: Tool,
    words: &'a str,
    file: &'a str,
    standard_input: &'a [u8],
    written: &'a str,
    // The status of a check and what is told of it, or why there was none.
    ended: Result<(Status, Told), Status>,
}

fn expect_run(alloc: Global, row: &Program<'_>) -> Result<(), Fail> {
    let words = words_of(alloc, row.words)?;
    let system = OneFile {
        alloc,
        file: row.file.as_bytes(),
    };
    let mut writer = Writer::new(alloc, usize::MAX, Stop::TakesNone);
    let ended = run_tool(
        &system,
        row.tool,
        words.as_slice(),
        Ok(row.standard_input),
        &mut ToWrite::new(&mut writer),
    );
    let found = match &ended {
        Ok(ended) => Ok((ended.checked.status, ended.told)),
        Err(ArgsFault::Words(_)) => Err(Status::Usage),
        Err(ArgsFault::OutOfMemory) => Err(Status::OutOfMemory),
    };
    expect_equal(found, row.ended)?;
    expect_equal(writer.taken.as_slice(), row.written.as_bytes())
}

const ROWS: [Program<'static>; 8] = [
    Program {
        tool: Tool::Drat,
        words: "drat-forward --trace e.cnf",
        file: E,
        standard_input: E_DRAT,
        written: "c formula 2 variables 4 clauses\n\
            c 1 add rup\nc 2 add rup\nc steps 2 peak 9\ns VERIFIED\n",
        ended: Ok((Status::Verified, Told::Nothing)),
    },
    Program {
        tool: Tool::Lrat,
        words: "lrat-check e.cnf",
        file: E,
        standard_input: E_PROOF,
        written: "c formula 2 variables 4 clauses\nc steps 2 peak 9\ns VERIFIED\n",
        ended: Ok((Status::Verified, Told::Nothing)),
    },
    Program {
        tool: Tool::Model,
        words: "model-check m.cnf",
        file: MODELS,
        standard_input: MODELS_OUTPUT,
        written: "c clauses 2\ns MODEL VERIFIED\n",
        ended: Ok((Status::Verified, Told::Nothing)),
    },
    // A proof that ends without the empty clause.
    Program {
        tool: Tool::Drat,
        words: "drat-forward e.cnf",
        file: E,
        standard_input: b"",
        written: "c formula 2 variables 4 clauses\nc end: no empty clause\ns NOT VERIFIED\n",
        ended: Ok((Status::NotVerified, Told::NoEmptyClause(Some(Hint::Empty)))),
    },
    // A step that is refused, which ends at the `0` in column 3.
    Program {
        tool: Tool::Drat,
        words: "drat-forward e.cnf",
        file: "p cnf 2 1\n1 2 0\n",
        standard_input: b"1 0\n0\n",
        written: "c formula 2 variables 1 clauses\nc step 2: not RUP\n\
            s NOT VERIFIED\n",
        ended: Ok((
            Status::NotVerified,
            Told::Refused(StepEnd::Text(Place { line: 2, col: 1 }), None),
        )),
    },
    // A model that leaves a clause without a true literal.
    Program {
        tool: Tool::Model,
        words: "model-check m.cnf",
        file: "p cnf 1 1\n1 0\n",
        standard_input: b"s SATISFIABLE\nv -1 0\n",
        written: "c clause 1 is not satisfied\ns MODEL NOT VERIFIED\n",
        ended: Ok((Status::NotVerified, Told::NotSatisfied(1))),
    },
    // A formula whose header is wrong at its second word.
    Program {
        tool: Tool::Lrat,
        words: "lrat-check e.cnf",
        file: "p dnf 1 1\n1 0\n",
        standard_input: b"",
        written: "c formula 1:3: bad header\ns NOT VERIFIED\n",
        ended: Ok((
            Status::Malformed,
            Told::Malformed(
                InputFault::Formula(Fault::Text(TextFault::BadHeader, Place { line: 1, col: 3 })),
                None,
            ),
        )),
    },
    // The words of another tool: nothing is read and nothing written.
    Program {
        tool: Tool::Lrat,
        words: "lrat-check --strict e.cnf",
        file: E,
        standard_input: E_PROOF,
        written: "",
        ended: Err(Status::Usage),
    },
];

#[test]
fn programs_run(rt: HostRuntime) -> Result<(), Fail> {
    for row in &ROWS {
        expect_run(rt.alloc(), row)?;
    }
    Ok(())
}
