//! The words of a memory.
//!
//! They are literals, so that a clause is handed out as a slice. Numbers are written among them as
//! the literals with the codes of them and 2.

ghost use Rattle.std.specs.Prelude.{◌≡◌, ℕ, ◌+◌, ◌-◌, ◌*◌, ◌<◌, ◌≤◌, ◌++◌, ◌∷◌, length, take, drop};
ghost use Rattle.std.specs.Prelude.{vec_len, vec_capacity, OnOk, slice_index, slice_set};
ghost use Rattle.std.specs.List.{swap};
ghost use Rattle.clause_memory.specs.Blocks.{cells_for};
ghost use Rattle.clause_memory.specs.Code.Free.{link_at};
ghost use Rattle.clause_memory.specs.Code.Cells.{blanks, clause_at, size_at};

use cnf_base::{Lit, OutOfMemory};

/// How many words a cell has.
pub(crate) const CELL: usize = 4;

/// The greatest number that a word can be.
pub(crate) const MOST: usize = 536870909;

/// The first word of a link has its last 28 bits.
const LOW: usize = 268435456;

/// A number as a word.
fn word(number: usize) -> Lit
    requires { number ≤ 536870909 }
    ensures { result ≡ number + 2 }
{
    let variable = (number / 2 + 1) as i32;
    let named = if number % 2 == 0 {
        Lit::new(variable)
    } else {
        Lit::new(-variable)
    };
    match named {
        Some(l) => l,
        None => unreachable!(),
    }
}

/// The number that a word is. It is taken in 32 bits, so that the compiler doesn't carry the
/// subtraction into the loops over a clause.
#[inline(always)]
fn number(word: Lit) -> usize
    ensures value { result ≡ word - 2 }
    ensures range { result ≤ 536870909 }
{
    (word.index() as u32).wrapping_sub(2) as usize
}

/// How many cells a block for so many literals has.
pub(crate) fn cells(literals: usize) -> usize
    ensures { result ≡ cells_for literals }
{
    literals / CELL + 1
}

/// How many literals follow the header of a block.
#[inline(always)]
pub(crate) fn size(words: &[Lit], slot: usize) -> usize
    requires { 4 * slot < length words.now }
    ensures value { result ≡ size_at words.now slot }
    ensures range { result ≤ 536870909 }
{
    number(words[slot * CELL])
}

/// The literals of a block.
#[inline(always)]
pub(crate) fn literals(words: &[Lit], slot: usize) -> &[Lit]
    requires { 4 * slot + 1 + size_at words.now slot ≤ length words.now }
    ensures { result.now ≡ clause_at words.now slot }
{
    let len = size(words, slot);
    let from = slot * CELL + 1;
    &words[from..from + len]
}

/// The link to the next block of a list of free ones.
pub(crate) fn link(words: &[Lit], slot: usize) -> usize
    requires { 4 * slot + 1 < length words.now }
    ensures { result ≡ link_at words.now slot }
{
    number(words[slot * CELL]) + LOW * number(words[slot * CELL + 1])
}

/// Makes room for more words. A full array grows by half and not to twice its length, since it is
/// much of what a program keeps.
pub(crate) fn grow(words: &mut Vec<Lit>, more: usize) -> Result<(), OutOfMemory>
    requires { more < 2147483648 }
    ensures same { words.new.items ≡ words.old.items }
    ensures room { OnOk result (vec_len words.new + more ≤ vec_capacity words.new) }
{
    if more > words.capacity().saturating_sub(words.len()) {
        words.reserve_exact(more.max(words.len() / 2))?;
    }
    Ok(())
}

/// Puts blank words at the end.
pub(crate) fn append_blanks(words: &mut Vec<Lit>, count: usize)
    requires { vec_len words.old + count ≤ vec_capacity words.old }
    ensures { words.new.items ≡ words.old.items ++ blanks count }
{
    let blank = word(0);
    for _added in 0..count {
        words.push_reserved(blank);
    }
}

/// Puts the header and the literals of a clause at the end, and blank words behind them up to this
/// count.
pub(crate) fn append_clause(words: &mut Vec<Lit>, lits: &[Lit], count: usize)
    requires short { length lits.now ≤ 536870909 }
    requires inside { length lits.now < count }
    requires room { vec_len words.old + count ≤ vec_capacity words.old }
    ensures { words.new.items ≡ words.old.items ++
        (length lits.now + 2) ∷ (lits.now ++ blanks (count - 1 - length lits.now)) }
{
    words.push_reserved(word(lits.len()));
    for l in lits {
        words.push_reserved(*l);
    }
    append_blanks(words, count - 1 - lits.len());
}

/// Overwrites words with blank ones.
pub(crate) fn wipe(words: &mut Vec<Lit>, from: usize, count: usize)
    requires { from + count ≤ length words.old.items }
    ensures { words.new.items ≡
        take from words.old.items ++ (blanks count ++ drop (from + count) words.old.items) }
{
    words[from..from + count].fill(word(0));
}

/// Overwrites words with literals.
fn write(words: &mut [Lit], from: usize, lits: &[Lit])
    requires { from + length lits.now ≤ length words.old }
    ensures { words.new ≡
        take from words.old ++ (lits.now ++ drop (from + length lits.now) words.old) }
{
    words[from..from + lits.len()].copy_from_slice(lits);
}

/// Writes the header and the literals of a clause.
pub(crate) fn write_clause(words: &mut Vec<Lit>, slot: usize, lits: &[Lit])
    requires inside { 4 * slot + 1 + length lits.now ≤ length words.old.items }
    requires short { length lits.now ≤ 536870909 }
    ensures same_len { length words.new.items ≡ length words.old.items }
    ensures header { slice_index words.new.items (4 * slot) ≡ length lits.now + 2 }
    ensures literals { take (length lits.now) (drop (4 * slot + 1) words.new.items) ≡ lits.now }
    ensures before { (i : ℕ) → i < 4 * slot →
        slice_index words.new.items i ≡ slice_index words.old.items i }
    ensures behind { (i : ℕ) → 4 * slot + 1 + length lits.now ≤ i →
        slice_index words.new.items i ≡ slice_index words.old.items i }
{
    let words = words.as_mut_slice();
    words[slot * CELL] = word(lits.len());
    write(words, slot * CELL + 1, lits);
}

/// Writes a link into a block.
pub(crate) fn write_link(words: &mut Vec<Lit>, slot: usize, link: usize)
    requires inside { 4 * slot + 1 < length words.old.items }
    requires low { link < 4294967296 }
    ensures same_len { length words.new.items ≡ length words.old.items }
    ensures link { link_at words.new.items slot ≡ link }
    ensures before { (i : ℕ) → i < 4 * slot →
        slice_index words.new.items i ≡ slice_index words.old.items i }
    ensures behind { (i : ℕ) → 4 * slot + 2 ≤ i →
        slice_index words.new.items i ≡ slice_index words.old.items i }
{
    let words = words.as_mut_slice();
    words[slot * CELL] = word(link % LOW);
    words[slot * CELL + 1] = word(link / LOW);
}

/// Puts two words in each other's place.
#[inline(always)]
fn exchange_two(words: &mut [Lit], a: usize, b: usize)
    requires first { a < length words.old }
    requires second { b < length words.old }
    ensures { words.new ≡ swap words.old a b }
{
    let first = words[a];
    words[a] = words[b];
    words[b] = first;
}

/// Puts two of the words from a place on in each other's place.
#[inline(always)]
fn exchange_behind(words: &mut Vec<Lit>, from: usize, a: usize, b: usize)
    requires inside { from ≤ length words.old.items }
    requires first { a < length (drop from words.old.items) }
    requires second { b < length (drop from words.old.items) }
    ensures { words.new.items ≡
        take from words.old.items ++ swap (drop from words.old.items) a b }
{
    exchange_two(&mut words[from..], a, b);
}

/// Puts two literals of a block in each other's place.
#[inline(always)]
#[tactic(auto, using(crate::proofs::SwapLemmas::swapped_behind))]
pub(crate) fn exchange(words: &mut Vec<Lit>, slot: usize, a: usize, b: usize)
    requires first { 4 * slot + 1 + a < length words.old.items }
    requires second { 4 * slot + 1 + b < length words.old.items }
    ensures { words.new.items ≡ swap words.old.items (4 * slot + 1 + a) (4 * slot + 1 + b) }
{
    exchange_behind(words, slot * CELL + 1, a, b);
}

/// Writes the first two literals of a slice, and its last one.
#[inline(always)]
fn write_three(block: &mut [Lit], first: Lit, second: Lit, last: usize, l: Lit)
    requires behind { 2 ≤ last }
    requires inside { last < length block.old }
    ensures { block.new ≡ slice_set (slice_set (slice_set block.old 0 first) 1 second) last l }
{
    block[0] = first;
    block[1] = second;
    block[last] = l;
}

/// Writes two words from a place on, and one that stands farther behind.
#[inline(always)]
fn write_behind(words: &mut Vec<Lit>, from: usize, first: Lit, second: Lit, to: usize, l: Lit)
    requires behind { 2 ≤ to }
    requires inside { from + to < length words.old.items }
    ensures { words.new.items ≡ take from words.old.items ++
        (slice_set (slice_set (slice_set (take (to + 1) (drop from words.old.items))
        0 first) 1 second) to l ++ drop (from + to + 1) words.old.items) }
{
    write_three(&mut words[from..from + to + 1], first, second, to, l);
}

/// Writes the first two literals of a block, and one behind them. None is read.
#[inline(always)]
#[tactic(auto, using(crate::proofs::RewatchLemmas::three_written))]
pub(crate) fn rewrite(words: &mut Vec<Lit>, slot: usize, first: Lit, second: Lit, to: usize, l: Lit)
    requires behind { 2 ≤ to }
    requires inside { 4 * slot + 1 + to < length words.old.items }
    ensures { words.new.items ≡ slice_set (slice_set (slice_set words.old.items
        (4 * slot + 1) first) (4 * slot + 2) second) (4 * slot + 1 + to) l }
{
    write_behind(words, slot * CELL + 1, first, second, to, l);
}
