//! Calls that take no memory. What comes before them is made in any case, so that a run with them
//! asks for as much as one without.

ghost use Rattle.std.specs.Prelude.{◌≡◌, ◌≤◌, [], false};
ghost use Rattle.std.specs.FinMap as maps;

use crate::pairs::read_and_step;
use crate::refused::{PAGES, bind_in_pages, bind_new};
use crate::{Literals, PLAIN_RULES, open};
use clause_db::{Blocks, Memory, Slot, Slots, Store};
use cnf_base::{Fault, FromRead, Lit, Scanner};
use dimacs::{ClauseBuf, FormulaReader, read_claim};
use proofs::{DratBinary, DratText, LratText, StepBuf, StepReader};
use propagation::{Answer, Propagate, Scan};
use std::alloc::Global;
use std::io::{Read, Write};
use steps::{DratSession, LratSession, ProofSession};
use trail::{Trail, Whole};
use watch::Watch;
use writers::{LineOut, ToWrite};

fn has_next_slot(number: i32) -> bool {
    match Lit::new(number) {
        Some(l) => {
            let _ = (l.neg(), l.var(), l.to_i32(), l.index());
            Slot::first().next().is_some()
        }
        None => false,
    }
}

fn buffers(alloc: Global) -> bool {
    let clause = ClauseBuf::new(alloc);
    let step = StepBuf::new(alloc);
    let _ = (step.kind(), step.id(), step.parts().0.len());
    clause.lits().is_empty() && step.lits().is_empty() && step.hints().is_empty()
}

/// Takes the bytes that it has room for, and more.
#[derive(Drop)]
struct Sink;

impl Write for Sink {
    fn write(&mut self, buf: &[u8]) -> std::io::Result<usize> {
        Ok(buf.len())
    }

    fn flush(&mut self) -> std::io::Result<()> {
        Ok(())
    }
}

fn lines(bytes: &[u8]) -> bool {
    let mut lines = LineOut::new(ToWrite::new(Sink));
    let is_written = lines.line(b"c steps 2 peak 9").is_ok() && lines.line(bytes).is_ok();
    let is_finished = lines.finish().is_ok();
    let _ = lines.release();
    is_written && is_finished
}

fn source(alloc: Global, is_called: bool) -> Result<bool, Fault> {
    let mut source = open(alloc, b"", b"1 -2 0\n", 9)?;
    if !is_called {
        return Ok(false);
    }
    for _ in 0..9u64 {
        let _ = (source.place(), source.byte_no());
        if let Ok(Some(_)) = source.peek() {
            source.bump();
        }
    }
    let _ = source.release();
    Ok(true)
}

fn scanner(alloc: Global, is_called: bool) -> Result<bool, Fault> {
    let source = open(
        alloc,
        b"p cnf d s v ",
        b"SATISFIABLE word 12 -345\nc x\n",
        9,
    )?;
    if !is_called {
        return Ok(false);
    }
    let mut scanner = Scanner::new(source);
    let mut is_read = true;
    for _ in 0..40u64 {
        is_read = scanner.next().is_ok() && is_read;
    }
    let _ = scanner.release();
    Ok(is_read)
}

fn formula(alloc: Global, is_called: bool) -> Result<bool, Fault> {
    let mut formula = match FormulaReader::open(open(alloc, b"p cnf 2 0\n", b"", 0)?) {
        Ok(formula) => formula,
        Err((fault, _)) => return Err(fault),
    };
    if !is_called {
        return Ok(false);
    }
    let mut clause = ClauseBuf::new(alloc);
    let is_right = formula.vars() == 2 && formula.clauses() == 0;
    let is_over = formula.next(&mut clause) == Ok(false);
    let _ = formula.release();
    Ok(is_right && is_over)
}

fn readers(alloc: Global, is_called: bool) -> Result<bool, Fault> {
    let text = open(alloc, b"", b"", 0)?;
    let binary = open(alloc, b"", b"", 0)?;
    let hints = open(alloc, b"", b"", 0)?;
    if is_called {
        let _ = DratText::new(text).release();
        let _ = DratBinary::new(binary).release();
        let _ = LratText::new(hints).release();
    }
    formula(alloc, is_called)
}

fn trail(alloc: Global, lits: &[Lit], is_called: bool) -> Result<bool, Fault> {
    let mut trail = Trail::new(alloc)?;
    trail.reserve_all(lits)?;
    if !is_called {
        return Ok(false);
    }
    // Each literal is set.
    let _ = trail.make_false(lits, &Whole);
    let length = trail.len();
    for l in lits {
        let _ = trail.value(*l);
    }
    trail.undo_to(0);
    Ok(length == lits.len())
}

/// Finds the clause in the store and removes it.
fn remove<M: Memory>(store: &mut Store<M>, lits: &[Lit]) {
    if let Some(slot) = store.find(lits) {
        let _ = store.clause(slot).len();
        store.remove(slot);
    }
}

fn store<M: Memory + Drop>(
    alloc: Global,
    few: &[Lit],
    many: &[Lit],
    is_called: bool,
) -> Result<bool, Fault> {
    let mut store = Store::<M>::new(alloc)?;
    store.insert(few)?;
    store.insert(many)?;
    if !is_called {
        return Ok(false);
    }
    for lits in [many, few] {
        remove(&mut store, lits);
    }
    Ok(store.literals() == 0)
}

/// Of which one is far and the others are in so many pages.
fn ids(alloc: Global, pages: u64, is_called: bool) -> Result<bool, Fault> {
    let mut ids = bind_in_pages(alloc, pages)?;
    let far = 9223372036854775807;
    bind_new(&mut ids, far, Slot::first())?;
    if !is_called {
        return Ok(false);
    }
    let is_found = ids.next_bound(8).is_some() && ids.slot_of(7).is_some();
    let mut is_taken = ids.slot_of(far).is_some() && ids.unbind(far).is_some();
    for page in 0..pages {
        let id = page.wrapping_mul(1024).wrapping_add(7);
        is_taken = ids.unbind(id).is_some() && is_taken;
    }
    Ok(is_found && is_taken && ids.next_bound(0).is_none())
}

/// Finds the clause and removes it, and tells whether it was there.
fn take_out<P: Propagate>(clauses: &mut P, lits: &[Lit]) -> bool
    requires { (P.state clauses.old).assumptions ≡ [] }
    ensures { (P.state clauses.new).assumptions ≡ [] }
{
    match clauses.find(lits) {
        Some(slot) => {
            let _ = clauses.clause(slot).len();
            clauses.remove(slot);
            true
        }
        None => false,
    }
}

fn clauses<P: Propagate + Drop>(
    mut clauses: P,
    few: &[Lit],
    many: &[Lit],
    l: Lit,
    is_called: bool,
) -> Result<bool, Fault>
    requires { (P.state clauses).assumptions ≡ [] }
{
    clauses.insert(few)?;
    clauses.insert(many)?;
    let answer = clauses.assume(&[])?;
    if !is_called {
        return Ok(false);
    }
    if answer == Answer::Quiet {
        let _ = clauses.value(l);
    }
    clauses.undo();
    let is_counted = clauses.count_with(l) > 0;
    let is_next = clauses.next_with(l, Slot::first()).is_some();
    let is_taken = take_out(&mut clauses, many) && take_out(&mut clauses, few);
    Ok(is_counted && is_next && is_taken && clauses.literals() == 0)
}

/// All variables were met by an insertion.
fn assumption<P: Propagate + Drop>(
    mut clauses: P,
    few: &[Lit],
    many: &[Lit],
    is_called: bool,
) -> Result<bool, Fault>
    requires { (P.state clauses).assumptions ≡ [] }
{
    clauses.insert(few)?;
    clauses.insert(many)?;
    if !is_called {
        return Ok(false);
    }
    clauses.assume(few)?;
    clauses.undo();
    clauses.assume(many)?;
    clauses.undo();
    Ok(true)
}

fn drat_session<P: Propagate + Drop>(clauses: P, is_called: bool) -> bool
    requires empty { (P.state clauses).live ≡ maps.empty }
    requires nothing_assumed { (P.state clauses).assumptions ≡ [] }
    requires none_refused { (P.state clauses).has_refused ≡ false }
{
    if !is_called {
        return false;
    }
    let session = DratSession::new(clauses, PLAIN_RULES);
    session.held() == 0 && session.peak() == 0 && !session.verified()
}

fn lrat_session(alloc: Global, few: &[Lit], is_called: bool) -> Result<bool, Fault> {
    let mut session = LratSession::new(alloc)?;
    let is_input = session.input(few).is_ok();
    if !is_called {
        return Ok(false);
    }
    let is_held = session.held() == session.peak() && !session.verified();
    Ok(is_input && is_held)
}

fn sessions(alloc: Global, few: &[Lit], is_called: bool) -> Result<bool, Fault> {
    let is_right_by_scan = drat_session(Scan::new(alloc)?, is_called);
    let is_right_by_watch = drat_session(Watch::new(alloc)?, is_called);
    let is_right_by_hints = lrat_session(alloc, few, is_called)?;
    Ok(is_right_by_scan && is_right_by_watch && is_right_by_hints)
}

// 1 2; -1 2. Both steps have nine hints. In the first the second is a conflict; in the second the
// walk is long.
const SHORT: &[u8] = b"9 2 0 1 2 9 9 9 9 9 9 9 0\n";

const LONG: &[u8] = b"9 2 0 1 1 1 1 1 1 1 1 2 0\n";

/// Whether the session accepts the first step that the reader gives, after these clauses of the
/// formula.
fn check_first_step<S: ProofSession, R: StepReader>(
    alloc: Global,
    session: &mut S,
    reader: &mut R,
    clauses: [[Lit; 2]; 2],
) -> Result<bool, Fault>
    requires unused { (S.shown session.old).has_stepped ≡ false }
    requires room { 2 ≤ (S.shown session.old).room }
{
    let [first, second] = clauses;
    if session.input(&first).is_err() || session.input(&second).is_err() {
        return Err(Fault::OutOfMemory);
    }
    let mut step = StepBuf::new(alloc);
    Ok(read_and_step(session, reader, &mut step)?.is_some())
}

/// Whether it accepts the first step of this text.
fn check_first_step_of<S: ProofSession>(
    alloc: Global,
    session: &mut S,
    text: &[u8],
    clauses: [[Lit; 2]; 2],
) -> Result<bool, Fault>
    requires unused { (S.shown session.old).has_stepped ≡ false }
    requires room { 2 ≤ (S.shown session.old).room }
{
    let mut reader = LratText::new(open(alloc, b"", text, 1)?);
    check_first_step(alloc, session, &mut reader, clauses)
}

fn walk(alloc: Global, clauses: [[Lit; 2]; 2], is_called: bool) -> Result<bool, Fault> {
    let mut session = LratSession::new(alloc)?;
    let text = if is_called { LONG } else { SHORT };
    let is_accepted = check_first_step_of(alloc, &mut session, text, clauses)?;
    Ok(is_accepted && is_called)
}

fn model(alloc: Global, l: Lit, is_called: bool) -> Result<bool, Fault> {
    let (claim, _) = read_claim(alloc, open(alloc, b"s SATISFIABLE\nv 1 -2 0\n", b"", 0)?);
    let model = claim?;
    Ok(is_called && model.holds(l))
}

fn by_reader(alloc: Global, name: &str, is_called: bool) -> Result<Option<bool>, Fault> {
    let is_done = match name {
        "quiet_literals" => is_called && has_next_slot(-268435455),
        "quiet_buffers" => is_called && buffers(alloc),
        "quiet_lines" => is_called && lines(&[b'x'; 200]),
        "quiet_source" => source(alloc, is_called)?,
        "quiet_scanner" => scanner(alloc, is_called)?,
        "quiet_readers" => readers(alloc, is_called)?,
        _ => return Ok(None),
    };
    Ok(Some(is_done))
}

fn by_clauses(
    alloc: Global,
    name: &str,
    literals: &Literals<'_>,
    is_called: bool,
) -> Result<Option<bool>, Fault> {
    let Literals { few, many, .. } = *literals;
    let [l, other] = few;
    let is_done = match name {
        "quiet_trail" => trail(alloc, many, is_called)?,
        "quiet_store" => store::<Blocks>(alloc, &few, many, is_called)?,
        "quiet_slots" => store::<Slots>(alloc, &few, many, is_called)?,
        "quiet_ids" => ids(alloc, 1, is_called)?,
        "quiet_far_ids" => ids(alloc, PAGES, is_called)?,
        "quiet_scan" => clauses(Scan::new(alloc)?, &few, many, l, is_called)?,
        "quiet_watch" => clauses(Watch::new(alloc)?, &few, many, l, is_called)?,
        "quiet_assumption" => assumption(Scan::new(alloc)?, &few, many, is_called)?,
        "quiet_sessions" => sessions(alloc, &few, is_called)?,
        "quiet_walk" => walk(alloc, [[l, other.neg()], [l.neg(), other.neg()]], is_called)?,
        "quiet_model" => model(alloc, l, is_called)?,
        _ => return Ok(None),
    };
    Ok(Some(is_done))
}

/// Carries out what is named, if anything is, and tells whether the calls came to what they should.
/// Those that take no memory are made only where they are called for.
pub fn carry_out(
    alloc: Global,
    name: &str,
    literals: &Literals<'_>,
    is_called: bool,
) -> Result<Option<bool>, Fault> {
    if let Some(is_done) = by_reader(alloc, name, is_called)? {
        return Ok(Some(is_done));
    }
    by_clauses(alloc, name, literals, is_called)
}
