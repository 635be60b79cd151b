//! The lists of a line, read from the front of a text.
ghost use Rattle.std.specs.Prelude.{◌≡◌, ◌≤◌, ℕ, List, [], length, drop, Option, IsTrue, IfOk, IfErr};
ghost use Rattle.heesch_line.specs.Reading.{Gives, number_at, cell_at, iso_at, lit_at, has_word, more_words_at};
ghost use Rattle.heesch_line.specs.Reading.{some_words_at, cells_at};

use crate::LineFault;
use crate::fields::{cell, iso, lit, number};
use heesch_cert::Cells;
use heesch_cnf::Lit;
use heesch_grid::{Cell, Iso};
use heesch_io::{NoMemory, Seq};
use memchr::memchr;
use std::alloc::Global;

/// The bytes that a word and its space take in most lists, or more.
const WORD_BYTES: usize = 4;

/// The most words for which a list has room before the first is read.
const MOST_ROOM: usize = 1024;

/// A word of a list within a line.
pub trait Word: Copy + Drop {
    ghost read: { List ℕ → Option (Self × List ℕ) };

    fn read_word(bytes: &[u8]) -> Result<(Self, &[u8]), LineFault>
        ensures gives { Gives (λ x. (x.0, x.1.now)) result (read bytes.now) }
        ensures err { IfErr result (λ e. e ≡ LineFault.NotALine) };
}

/// A natural number.
impl Word for u32 {
    ghost read = { number_at };

    fn read_word(bytes: &[u8]) -> Result<(u32, &[u8]), LineFault> {
        number(bytes)
    }
}

/// A cell as `A,B`.
impl Word for Cell {
    ghost read = { cell_at };

    fn read_word(bytes: &[u8]) -> Result<(Cell, &[u8]), LineFault> {
        cell(bytes)
    }
}

/// A literal as the number of its variable, with `-` before it where it is negative.
impl Word for Lit {
    ghost read = { lit_at };

    fn read_word(bytes: &[u8]) -> Result<(Lit, &[u8]), LineFault> {
        lit(bytes)
    }
}

/// A place as `TURN,DA,DB`.
impl Word for Iso {
    ghost read = { iso_at 44 };

    fn read_word(bytes: &[u8]) -> Result<(Iso, &[u8]), LineFault> {
        iso(b',', bytes)
    }
}

/// Whether a further word follows: a space, and behind it no colon.
fn has_word(bytes: &[u8]) -> bool
    ensures value { result ≡ has_word bytes.now }
    ensures there { IsTrue result → 1 ≤ length bytes.now }
{
    match bytes {
        [b' ', b':', ..] => false,
        [b' ', ..] => true,
        _ => false,
    }
}

/// All bytes but the first.
fn without_first(bytes: &[u8]) -> &[u8]
    requires { 1 ≤ length bytes.now }
    ensures { result.now ≡ drop 1 bytes.now }
{
    &bytes[1..]
}

/// The items, and after them further words, each behind a space, as far as they go.
pub fn more_words<W: Word>(mut items: Seq<W>, bytes: &[u8]) -> Result<(Seq<W>, &[u8]), LineFault>
    ensures { Gives (λ x. (x.0, x.1.now)) result (more_words_at W.read items bytes.now) }
{
    let mut rest = bytes;
    for _ in 0..bytes.len() {
        if !has_word(rest) {
            return Ok((items, rest));
        }
        let (item, after) = W::read_word(without_first(rest))?;
        items.push(item)?;
        rest = after;
    }
    Ok((items, rest))
}

/// No word, with room for about as many as stand before a colon.
fn no_words<W: Word>(alloc: Global, bytes: &[u8]) -> Result<Seq<W>, NoMemory>
    ensures { IfOk result (λ items. items ≡ []) }
{
    let end = memchr(b':', bytes).unwrap_or(bytes.len());
    let room = (end / WORD_BYTES + 1).min(MOST_ROOM);
    Ok(Seq::from_vec(Vec::with_capacity(alloc, room)?))
}

/// One word or more, each behind a space.
pub fn some_words<W: Word>(alloc: Global, bytes: &[u8]) -> Result<(Seq<W>, &[u8]), LineFault>
    ensures { Gives (λ x. (x.0, x.1.now)) result (some_words_at W.read bytes.now) }
{
    let (items, rest) = more_words(no_words(alloc, bytes)?, bytes)?;
    if items.as_slice().is_empty() {
        return Err(LineFault::NotALine);
    }
    Ok((items, rest))
}

/// One cell or more, with single spaces between them.
#[tactic(auto, unfolding(crate::specs::Reading::cells_at))]
pub fn cells(alloc: Global, bytes: &[u8]) -> Result<(Cells, &[u8]), LineFault>
    ensures { Gives (λ x. (x.0, x.1.now)) result (cells_at bytes.now) }
{
    let (first, rest) = cell(bytes)?;
    let mut cells = Seq::new(alloc);
    cells.push(first)?;
    more_words(cells, rest)
}
