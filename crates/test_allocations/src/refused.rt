//! Calls that memory may be refused to, and what they leave.

ghost use Rattle.std.specs.Prelude.{◌≡◌, ◌≤◌, [], false};
ghost use Rattle.std.specs.FinMap as maps;

use crate::{Literals, PLAIN_RULES, open};
use clause_db::{Blocks, Memory, Slot, Slots, Store};
use cnf_base::{Fault, Lit, OutOfMemory};
use dimacs::{ClauseBuf, FormulaReader};
use ids::Ids;
use proofs::{DratBinary, DratText, LratText, StepBuf, StepReader};
use propagation::{Propagate, Scan};
use std::alloc::Global;
use steps::{DratRules, DratSession, LratSession, ProofSession, Refusal};
use trail::{Trail, Value, Whole};
use watch::Watch;

/// How such a call ended.
#[derive(Clone, Copy, PartialEq, Eq)]
pub enum Told {
    /// Nothing was refused.
    Whole,
    /// Memory was refused, and what is left is as it has to be.
    Kept,
    Changed,
}

fn judged(is_kept: bool) -> Told {
    if is_kept { Told::Kept } else { Told::Changed }
}

/// A store is as it was, and takes the clause later.
fn insert<M: Memory + Drop>(alloc: Global, few: &[Lit], many: &[Lit]) -> Result<Told, Fault> {
    let mut store = Store::<M>::new(alloc)?;
    let slot = store.insert(few)?;
    let literals = store.literals();
    if store.insert(many).is_ok() {
        return Ok(Told::Whole);
    }
    let is_same = store.find(few) == Some(slot)
        && store.find(many).is_none()
        && store.literals() == literals;
    let is_taken = store.insert(many).is_ok() && store.find(many).is_some();
    Ok(judged(is_same && is_taken))
}

/// Binds an identifier, where it is not bound.
pub fn bind_new(ids: &mut Ids, id: u64, slot: Slot) -> Result<(), OutOfMemory> {
    if ids.slot_of(id).is_some() {
        return Ok(());
    }
    ids.bind(id, slot)
}

/// Identifiers of which one is bound in each of so many pages.
pub fn bind_in_pages(alloc: Global, pages: u64) -> Result<Ids, OutOfMemory> {
    let mut ids = Ids::new(alloc)?;
    for page in 0..pages {
        bind_new(
            &mut ids,
            page.wrapping_mul(1024).wrapping_add(7),
            Slot::first(),
        )?;
    }
    Ok(ids)
}

/// So many pages are made for any identifier. A far one has none after them.
pub const PAGES: u64 = 64;

/// The same identifiers are bound, and the new one can be later.
fn bind(alloc: Global, pages: u64) -> Result<Told, Fault> {
    let slot = Slot::first();
    let mut ids = bind_in_pages(alloc, pages)?;
    let far = 9223372036854775807;
    if bind_new(&mut ids, far, slot).is_ok() {
        return Ok(Told::Whole);
    }
    let is_same = ids.slot_of(7) == Some(slot)
        && ids.slot_of(far).is_none()
        && ids.next_bound(pages.wrapping_mul(1024)).is_none();
    let is_bound = bind_new(&mut ids, far, slot).is_ok() && ids.slot_of(far) == Some(slot);
    Ok(judged(is_same && is_bound))
}

/// A trail has the same literals, and room can be made later.
fn reserve(alloc: Global, few: &[Lit], far: Lit) -> Result<Told, Fault> {
    let mut trail = Trail::new(alloc)?;
    trail.reserve_all(few)?;
    let _ = trail.make_false(few, &Whole);
    let length = trail.len();
    if trail.reserve(far.var()).is_ok() {
        return Ok(Told::Whole);
    }
    let is_same = trail.len() == length
        && trail.value(far) == Value::Open
        && few.iter().all(|l| trail.value(*l) == Value::False);
    Ok(judged(is_same && trail.reserve(far.var()).is_ok()))
}

/// Every later assumption is refused, and the clauses stay.
fn assume<P: Propagate + Drop>(mut clauses: P, few: &[Lit], many: &[Lit]) -> Result<Told, Fault>
    requires { (P.state clauses).assumptions ≡ [] }
{
    let slot = clauses.insert(few)?;
    let literals = clauses.literals();
    if clauses.assume(many).is_ok() {
        return Ok(Told::Whole);
    }
    let is_same = clauses.find(few) == Some(slot) && clauses.literals() == literals;
    let is_refused = clauses.assume(&[]).is_err() && clauses.assume(few).is_err();
    Ok(judged(is_same && is_refused))
}

/// Every later such question and every later assumption is refused, and the clauses stay. It is
/// asked past a clash.
fn ask_root_reason<P: Propagate + Drop>(mut clauses: P, few: &[Lit]) -> Result<Told, Fault>
    requires { (P.state clauses).assumptions ≡ [] }
{
    let Some(first) = few.first() else {
        return Ok(Told::Changed);
    };
    clauses.insert(&[*first])?;
    clauses.insert(&[first.neg()])?;
    clauses.insert(few)?;
    let literals = clauses.literals();
    let Some(asked) = clauses.find(few) else {
        return Ok(Told::Changed);
    };
    if clauses.is_root_reason(asked).is_ok() {
        return Ok(Told::Whole);
    }
    let Some(again) = clauses.find(few) else {
        return Ok(Told::Changed);
    };
    let is_refused = clauses.is_root_reason(again).is_err() && clauses.assume(&[]).is_err();
    Ok(judged(again == asked && is_refused && clauses.literals() == literals))
}

/// Every later step is answered that the session is ended.
fn step<S: ProofSession, R: StepReader>(
    alloc: Global,
    session: &mut S,
    reader: &mut R,
    few: &[Lit],
) -> Result<Told, Fault>
    requires unused { (S.shown session.old).has_stepped ≡ false }
    requires room { 2 ≤ (S.shown session.old).room }
{
    if session.input(few).is_err() {
        return Err(Fault::OutOfMemory);
    }
    let mut step = StepBuf::new(alloc);
    if !reader.next(&mut step)? {
        return Ok(Told::Changed);
    }
    match session.step(&step) {
        Ok(_) => Ok(Told::Whole),
        Err(Refusal::OutOfMemory) => {
            let is_ended = session.step(&step) == Err(Refusal::Ended)
                && session.step(&step) == Err(Refusal::Ended);
            Ok(judged(is_ended && !session.verified()))
        }
        Err(_) => Ok(Told::Changed),
    }
}

/// After a clause of the formula too.
fn input<S: ProofSession>(alloc: Global, session: &mut S, many: &[Lit]) -> Told
    requires unused { (S.shown session.old).has_stepped ≡ false }
    requires room { 2 ≤ (S.shown session.old).room }
{
    let step = StepBuf::new(alloc);
    match session.input(many) {
        Ok(()) => Told::Whole,
        Err(_) => judged(session.step(&step) == Err(Refusal::Ended)),
    }
}

/// A reader of proofs answers it again.
fn next_step<R: StepReader>(alloc: Global, reader: &mut R) -> Told {
    let mut step = StepBuf::new(alloc);
    match reader.next(&mut step) {
        Ok(is_step) => { if is_step { Told::Whole } else { Told::Changed } }
        Err(fault) => judged(fault == Fault::OutOfMemory && reader.next(&mut step) == Err(fault)),
    }
}

/// So does a reader of formulas.
fn next_clause(alloc: Global, text: &[u8]) -> Result<Told, Fault> {
    let mut reader = match FormulaReader::open(open(alloc, b"p cnf 40 1\n", text, 1)?) {
        Ok(reader) => reader,
        Err((fault, _)) => return Err(fault),
    };
    let mut clause = ClauseBuf::new(alloc);
    match reader.next(&mut clause) {
        Ok(_) => Ok(Told::Whole),
        Err(fault) => {
            let is_kept = fault == Fault::OutOfMemory && reader.next(&mut clause) == Err(fault);
            Ok(judged(is_kept))
        }
    }
}

const CLAUSE: &[u8] =
    b"1 2 3 4 5 6 7 8 9 10 11 12 13 14 15 16 17 18 19 20 21 22 23 24 25 26 27 28 29 30 0\n";

const BINARY: &[u8] = b"a\x02\x04\x06\x08\x0a\x0c\x0e\x10\x12\x14\x16\x18\x1a\x1c\x1e\
        \x20\x22\x24\x26\x28\x2a\x2c\x2e\x30\x00";

// A definition: the new variable is the pivot.
const ADDITION: &[u8] = b"33 34 35 36 37 38 39 40 41 42 43 44 45 46 47 48 49 50 0\n";

// The set makes the first literal of `few` false, and the second, -2, true.
const ADDITION_WITH_SET: &[u8] = b"33 34 35 33 36 37 38 39 40 41 42 43 44 45 46 47 48 -1 -2 0\n";

const ADDITION_BY_HINTS: &[u8] = b"9 33 34 35 36 37 38 39 40 41 42 43 44 45 46 47 48 49 50 0 0\n";

fn drat_step<P: Propagate + Drop>(alloc: Global, clauses: P, few: &[Lit]) -> Result<Told, Fault>
    requires empty { (P.state clauses).live ≡ maps.empty }
    requires nothing_assumed { (P.state clauses).assumptions ≡ [] }
    requires none_refused { (P.state clauses).has_refused ≡ false }
{
    let mut session = DratSession::new(clauses, PLAIN_RULES);
    let mut reader = DratText::new(open(alloc, b"", ADDITION, 1)?);
    step(alloc, &mut session, &mut reader, few)
}

fn step_with_set<P: Propagate + Drop>(alloc: Global, clauses: P, few: &[Lit]) -> Result<Told, Fault>
    requires empty { (P.state clauses).live ≡ maps.empty }
    requires nothing_assumed { (P.state clauses).assumptions ≡ [] }
    requires none_refused { (P.state clauses).has_refused ≡ false }
{
    let mut session = DratSession::new(
        clauses,
        DratRules {
            pr: true,
            ..PLAIN_RULES
        },
    );
    let mut reader = DratText::new(open(alloc, b"", ADDITION_WITH_SET, 1)?);
    step(alloc, &mut session, &mut reader, few)
}

fn drat_input<P: Propagate + Drop>(alloc: Global, clauses: P, many: &[Lit]) -> Told
    requires empty { (P.state clauses).live ≡ maps.empty }
    requires nothing_assumed { (P.state clauses).assumptions ≡ [] }
    requires none_refused { (P.state clauses).has_refused ≡ false }
{
    let mut session = DratSession::new(clauses, PLAIN_RULES);
    input(alloc, &mut session, many)
}

fn step_by_hints<S: ProofSession>(
    alloc: Global,
    session: &mut S,
    few: &[Lit],
) -> Result<Told, Fault>
    requires unused { (S.shown session.old).has_stepped ≡ false }
    requires room { 2 ≤ (S.shown session.old).room }
{
    let mut reader = LratText::new(open(alloc, b"", ADDITION_BY_HINTS, 1)?);
    step(alloc, session, &mut reader, few)
}

fn lrat_step(alloc: Global, few: &[Lit]) -> Result<Told, Fault> {
    let mut session = LratSession::new(alloc)?;
    step_by_hints(alloc, &mut session, few)
}

fn lrat_input(alloc: Global, many: &[Lit]) -> Result<Told, Fault> {
    let mut session = LratSession::new(alloc)?;
    Ok(input(alloc, &mut session, many))
}

fn by_store(alloc: Global, name: &str, literals: &Literals<'_>) -> Result<Option<Told>, Fault> {
    let Literals { few, many, far } = *literals;
    let told = match name {
        "refused_insert" => insert::<Blocks>(alloc, &few, many),
        "refused_insert_into_slots" => insert::<Slots>(alloc, &few, many),
        "refused_bind" => bind(alloc, 1),
        "refused_bind_far" => bind(alloc, PAGES),
        "refused_reserve" => reserve(alloc, &few, far),
        _ => return Ok(None),
    };
    Ok(Some(told?))
}

fn by_propagation(
    alloc: Global,
    name: &str,
    literals: &Literals<'_>,
) -> Result<Option<Told>, Fault> {
    let Literals { few, many, .. } = *literals;
    let told = match name {
        "refused_assume_of_scan" => assume(Scan::new(alloc)?, &few, many),
        "refused_assume_of_watch" => assume(Watch::new(alloc)?, &few, many),
        "refused_root_reason_of_scan" => ask_root_reason(Scan::new(alloc)?, &few),
        "refused_root_reason_of_watch" => ask_root_reason(Watch::new(alloc)?, &few),
        _ => return Ok(None),
    };
    Ok(Some(told?))
}

fn by_session(alloc: Global, name: &str, literals: &Literals<'_>) -> Result<Option<Told>, Fault> {
    let Literals { few, many, .. } = *literals;
    let told = match name {
        "refused_step_by_scan" => drat_step(alloc, Scan::new(alloc)?, &few),
        "refused_step_by_watch" => drat_step(alloc, Watch::new(alloc)?, &few),
        "refused_step_with_a_set" => step_with_set(alloc, Watch::new(alloc)?, &few),
        "refused_step_by_hints" => lrat_step(alloc, &few),
        "refused_input_of_scan" => Ok(drat_input(alloc, Scan::new(alloc)?, many)),
        "refused_input_by_hints" => lrat_input(alloc, many),
        _ => return Ok(None),
    };
    Ok(Some(told?))
}

fn read_drat(alloc: Global) -> Result<Told, Fault> {
    let mut reader = DratText::new(open(alloc, b"", CLAUSE, 1)?);
    Ok(next_step(alloc, &mut reader))
}

fn read_binary(alloc: Global) -> Result<Told, Fault> {
    let mut reader = DratBinary::new(open(alloc, b"", BINARY, 1)?);
    Ok(next_step(alloc, &mut reader))
}

fn read_lrat(alloc: Global) -> Result<Told, Fault> {
    let mut reader = LratText::new(open(alloc, b"9 ", LRAT, 1)?);
    Ok(next_step(alloc, &mut reader))
}

fn by_reader(alloc: Global, name: &str) -> Result<Option<Told>, Fault> {
    let told = match name {
        "refused_drat" => read_drat(alloc),
        "refused_binary" => read_binary(alloc),
        "refused_lrat" => read_lrat(alloc),
        "refused_formula" => next_clause(alloc, CLAUSE),
        _ => return Ok(None),
    };
    Ok(Some(told?))
}

/// Carries out what is named, if anything is.
pub fn carry_out(
    alloc: Global,
    name: &str,
    literals: &Literals<'_>,
) -> Result<Option<Told>, Fault> {
    if let Some(told) = by_store(alloc, name, literals)? {
        return Ok(Some(told));
    }
    if let Some(told) = by_propagation(alloc, name, literals)? {
        return Ok(Some(told));
    }
    if let Some(told) = by_session(alloc, name, literals)? {
        return Ok(Some(told));
    }
    by_reader(alloc, name)
}

const LRAT: &[u8] = b"1 2 3 4 5 6 7 8 9 10 11 12 13 14 15 16 17 18 19 20 0 1 2 3 4 \
        5 6 7 8 9 10 11 12 13 14 15 16 17 0\n";
