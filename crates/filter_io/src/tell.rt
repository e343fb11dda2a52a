//! Tells on standard error what is to be told of a run.

use crate::file_name::FileName;
use crate::input::Input;
use crate::inputs::second_name;
use crate::run::Ended;
use crate::system::System;
use crate::told::Told;
use cnf_base::{Fault, Place, TextFault};
use hints::{Argument, Header, Hint, HintText};
use proofs::StepEnd;
use sat_check::{Args, ArgsFault, InputFault, Tool, binary_kind, text_kind};
use std::io::Read;

/// Tells what is to be told of a check.
pub(crate) fn tell<S: System>(rt: &HostRuntime, tool: Tool, ended: &Ended<'_, S>) {
    let (name, args) = (tool.name(), &ended.args);
    let second = FileName::given(second_name(args));
    match ended.told {
        Told::Nothing => {}
        Told::OutOfMemory => tell_line(rt, name, "out of memory"),
        Told::WriteFailed => tell_line(rt, name, "write failed"),
        Told::ReadFailed => {
            tell_failure(rt, name, formula_name(args), &ended.formula);
            tell_failure(rt, name, second, &ended.second);
        }
        Told::NoEmptyClause(hint) => {
            let _ = eprintln!(rt; "{name}: {second}: the proof ends without the empty clause");
            tell_hint(rt, tool, args, Argument::Second, hint);
        }
        Told::NoModel => {
            let _ = eprintln!(rt; "{name}: {second}: no consistent model is claimed");
        }
        Told::NotSatisfied(number) => {
            let formula = formula_name(args);
            let _ = eprintln!(rt; "{name}: {formula}: clause {number} has no literal of the model");
        }
        Told::Refused(end, hint) => {
            tell_end(rt, name, second, end);
            tell_hint(rt, tool, args, Argument::Second, hint);
        }
        Told::Malformed(fault, hint) => tell_malformed(rt, tool, ended, fault, hint),
    }
}

/// Tells why there is no check.
pub(crate) fn tell_no_check(rt: &HostRuntime, tool: Tool, fault: &ArgsFault) {
    match fault {
        ArgsFault::Words(text) => {
            let _ = eprint!(rt; "{text}");
        }
        ArgsFault::OutOfMemory => tell_line(rt, tool.name(), "out of memory"),
    }
}

fn tell_line(rt: &HostRuntime, name: &str, text: &str) {
    let _ = eprintln!(rt; "{name}: {text}");
}

// Why a read of this input failed, if one did.
fn tell_failure<F: Read + Drop, S: Read + Drop>(
    rt: &HostRuntime,
    name: &str,
    file: FileName<'_>,
    input: &Input<'_, F, S>,
) {
    if let Some(error) = input.failure() {
        let _ = eprintln!(rt; "{name}: {file}: {error}");
    }
}

// Where the step ends that was refused.
fn tell_end(rt: &HostRuntime, name: &str, file: FileName<'_>, end: StepEnd) {
    let _ = match end {
        StepEnd::Text(Place { line, col }) => {
            eprintln!(rt; "{name}: {file}: the refused step ends at line {line}, column {col}")
        }
        StepEnd::Byte(byte_no) => {
            eprintln!(rt; "{name}: {file}: the refused step ends at byte {byte_no}")
        }
    };
}

// What is wrong with an input, and where, and what may help.
fn tell_malformed<S: System>(
    rt: &HostRuntime,
    tool: Tool,
    ended: &Ended<'_, S>,
    fault: InputFault,
    hint: Option<Hint>,
) {
    let (name, args) = (tool.name(), &ended.args);
    let (argument, malformed) = match fault {
        InputFault::Formula(fault) => (Argument::Formula, fault),
        InputFault::Second(fault) => (Argument::Second, fault),
    };
    let file = name_of(args, argument);
    match malformed {
        Fault::Text(kind, place) => {
            tell_text_fault(rt, name, file, kind, place, ended.formula.header());
        }
        Fault::Binary(kind, byte_no) => {
            let kind = binary_kind(kind);
            let _ = eprintln!(rt; "{name}: {file}: byte {byte_no}: {kind}");
        }
        Fault::ReadFailed | Fault::OutOfMemory => return,
    }
    tell_hint(rt, tool, args, argument, hint);
}

// What is wrong at a place of a text: of a literal out of range, and of a wrong number of clauses,
// also what the formula's header says, where that is known.
fn tell_text_fault(
    rt: &HostRuntime,
    name: &str,
    file: FileName<'_>,
    kind: TextFault,
    place: Place,
    header: Option<Header>,
) {
    let Place { line, col } = place;
    let text = text_kind(kind);
    let _ = match (kind, header) {
        (TextFault::LiteralOutOfRange, Some(Header { variables, .. })) => eprintln!(rt;
            "{name}: {file}: line {line}, column {col}: {text}: \
            the header's number of variables is {variables}"
        ),
        (TextFault::TooFewClauses | TextFault::TooManyClauses, Some(Header { clauses, .. })) => {
            eprintln!(rt;
                "{name}: {file}: line {line}, column {col}: {text}: \
                the header's number of clauses is {clauses}"
            )
        }
        _ => eprintln!(rt; "{name}: {file}: line {line}, column {col}: {text}"),
    };
}

// What may help, if something may.
fn tell_hint(rt: &HostRuntime, tool: Tool, args: &Args, argument: Argument, hint: Option<Hint>) {
    let Some(hint) = hint else {
        return;
    };
    let (name, file) = (tool.name(), name_of(args, argument));
    let text = HintText {
        hint,
        argument,
        tool,
        args,
    };
    let _ = eprintln!(rt; "{name}: {file}: hint: {text}");
}

// What an input is called.
fn name_of(args: &Args, argument: Argument) -> FileName<'_> {
    match argument {
        Argument::Formula => formula_name(args),
        Argument::Second => FileName::given(second_name(args)),
    }
}

fn formula_name(args: &Args) -> FileName<'_> {
    FileName::given(Some(args.formula.as_str()))
}
