//! The fields of a line, read from the front of a text.
ghost use Rattle.std.specs.Prelude.{◌≡◌, ◌≤◌, ◌<◌, ℕ, List, length, slice_index, take, drop, MatchOption, None, Some};
ghost use Rattle.std.specs.Prelude.{IfErr, IfSome};
ghost use Rattle.std.specs.Str.Parse.{digits_value};
ghost use Rattle.heesch_line.specs.Reading.{Gives, literal_at, digits_len, number_at, labelled_at, is_minus};
ghost use Rattle.heesch_line.specs.Reading.{integer_at, cell_at, iso_at, lit_at, three_numbers_at, triple_of};
ghost use Rattle.heesch_line.specs.Reading.{limits_at};

use crate::LineFault;
use heesch_cert::Limits;
use heesch_cnf::{Lit, Version};
use heesch_grid::{Cell, Iso};
use heesch_lattice::Triple;

/// The greatest integer of a line; the least one is its negative.
const LARGEST_INTEGER: u32 = 100_000;

/// One more than the greatest turn of a line.
const TURNS: u32 = 12;

/// The most digits that a number of 32 bits has.
const MOST_DIGITS: usize = 10;

/// The bytes behind a word, where it stands at the front.
pub fn after<'a>(word: &[u8], bytes: &'a [u8]) -> Option<&'a [u8]>
    ensures { MatchOption result (literal_at word.now bytes.now ≡ None)
        (λ rest. literal_at word.now bytes.now ≡ Some rest.now) }
{
    bytes.strip_prefix(word)
}

/// The bytes behind a word.
pub fn literal<'a>(word: &[u8], bytes: &'a [u8]) -> Result<&'a [u8], LineFault>
    ensures gives { Gives (λ rest. rest.now) result (literal_at word.now bytes.now) }
    ensures err { IfErr result (λ e. e ≡ LineFault.NotALine) }
{
    match after(word, bytes) {
        Some(rest) => Ok(rest),
        None => Err(LineFault::NotALine),
    }
}

/// The number that the digits at the front write, and how many they are. None where they are more than ten.
fn front_digits(bytes: &[u8]) -> Option<(u64, usize)>
    ensures none { result ≡ None → 10 < digits_len bytes.now }
    ensures few { IfSome result (λ x. x.1 ≤ 10) }
    ensures count { IfSome result (λ x. x.1 ≡ digits_len bytes.now) }
    ensures within { IfSome result (λ x. x.1 ≤ length bytes.now) }
    ensures value { IfSome result (λ x. x.0 ≡ digits_value 10 (take (digits_len bytes.now) bytes.now)) }
{
    let mut value = 0u64;
    let mut count = 0;
    for byte in bytes {
        if !byte.is_ascii_digit() {
            return Some((value, count));
        }
        if count == MOST_DIGITS {
            return None;
        }
        value = value * 10 + u64::from(*byte - b'0');
        count += 1;
    }
    Some((value, count))
}

/// A natural number, in decimal digits with no 0 before others.
#[tactic(auto, unfolding(crate::specs::Reading::number_at))]
pub fn number(bytes: &[u8]) -> Result<(u32, &[u8]), LineFault>
    ensures gives { Gives (λ x. (x.0, x.1.now)) result (number_at bytes.now) }
    ensures err { IfErr result (λ e. e ≡ LineFault.NotALine) }
{
    let Some((value, count)) = front_digits(bytes) else {
        return Err(LineFault::NotALine);
    };
    let (digits, rest) = bytes.split_at(count);
    if digits.is_empty() || value > u64::from(u32::MAX) {
        return Err(LineFault::NotALine);
    }
    if digits.len() > 1 && digits[0] == b'0' {
        return Err(LineFault::NotALine);
    }
    Ok((value as u32, rest))
}

/// A natural number behind a word.
pub fn labelled<'a>(word: &[u8], bytes: &'a [u8]) -> Result<(u32, &'a [u8]), LineFault>
    ensures gives { Gives (λ x. (x.0, x.1.now)) result (labelled_at word.now bytes.now) }
    ensures err { IfErr result (λ e. e ≡ LineFault.NotALine) }
{
    let rest = literal(word, bytes)?;
    number(rest)
}

/// Whether `-` is the first byte.
fn begins_with_minus(bytes: &[u8]) -> bool
    ensures { result ≡ is_minus bytes.now }
{
    !bytes.is_empty() && bytes[0] == b'-'
}

/// An integer within 100,000 of 0.
#[tactic(auto, unfolding(crate::specs::Reading::integer_at))]
pub fn integer(bytes: &[u8]) -> Result<(i32, &[u8]), LineFault>
    ensures gives { Gives (λ x. (x.0, x.1.now)) result (integer_at bytes.now) }
    ensures err { IfErr result (λ e. e ≡ LineFault.NotALine) }
{
    if begins_with_minus(bytes) {
        let (number, rest) = number(&bytes[1..])?;
        if number == 0 || number > LARGEST_INTEGER {
            return Err(LineFault::NotALine);
        }
        return Ok((-(number as i32), rest));
    }
    let (number, rest) = number(bytes)?;
    if number > LARGEST_INTEGER {
        return Err(LineFault::NotALine);
    }
    Ok((number as i32, rest))
}

/// A cell as `A,B`.
#[tactic(auto, unfolding(crate::specs::Reading::cell_at))]
pub fn cell(bytes: &[u8]) -> Result<(Cell, &[u8]), LineFault>
    ensures gives { Gives (λ x. (x.0, x.1.now)) result (cell_at bytes.now) }
    ensures err { IfErr result (λ e. e ≡ LineFault.NotALine) }
{
    let (a, rest) = integer(bytes)?;
    let rest = literal(b",", rest)?;
    let (b, rest) = integer(rest)?;
    Ok((Cell { a, b }, rest))
}

/// An isometry as `TURN DA DB`, with this byte in place of the spaces.
#[tactic(auto, unfolding(crate::specs::Reading::iso_at))]
pub fn iso(between: u8, bytes: &[u8]) -> Result<(Iso, &[u8]), LineFault>
    ensures gives { Gives (λ x. (x.0, x.1.now)) result (iso_at between bytes.now) }
    ensures err { IfErr result (λ e. e ≡ LineFault.NotALine) }
{
    let (turn, rest) = number(bytes)?;
    let rest = literal(&[between], rest)?;
    let (da, rest) = integer(rest)?;
    let rest = literal(&[between], rest)?;
    let (db, rest) = integer(rest)?;
    if turn >= TURNS {
        return Err(LineFault::NotALine);
    }
    Ok((Iso { turn, da, db }, rest))
}

/// A literal as the number of its variable, with `-` before it where it is negative.
#[tactic(auto, unfolding(crate::specs::Reading::lit_at))]
pub fn lit(bytes: &[u8]) -> Result<(Lit, &[u8]), LineFault>
    ensures gives { Gives (λ x. (x.0, x.1.now)) result (lit_at bytes.now) }
    ensures err { IfErr result (λ e. e ≡ LineFault.NotALine) }
{
    let positive = !begins_with_minus(bytes);
    let digits = if positive { bytes } else { &bytes[1..] };
    let (var, rest) = number(digits)?;
    if var == 0 {
        return Err(LineFault::NotALine);
    }
    Ok((Lit { var, positive }, rest))
}

/// Three natural numbers as `P Q S`.
#[tactic(auto, unfolding(crate::specs::Reading::three_numbers_at))]
pub fn three_numbers(bytes: &[u8]) -> Result<((u32, u32, u32), &[u8]), LineFault>
    ensures gives { Gives (λ x. (x.0, x.1.now)) result (three_numbers_at bytes.now) }
    ensures err { IfErr result (λ e. e ≡ LineFault.NotALine) }
{
    let (p, rest) = number(bytes)?;
    let rest = literal(b" ", rest)?;
    let (q, rest) = number(rest)?;
    let rest = literal(b" ", rest)?;
    let (s, rest) = number(rest)?;
    Ok(((p, q, s), rest))
}

/// The triple of these numbers.
pub fn triple_of(p: u32, q: u32, s: u32) -> Result<Triple, LineFault>
    ensures gives { Gives (λ t. t) result (triple_of p q s) }
    ensures err { IfErr result (λ e. e ≡ LineFault.NotALine) }
{
    match Triple::new(p, q, s) {
        Some(triple) => Ok(triple),
        None => Err(LineFault::NotALine),
    }
}

/// The four limits, each behind its name, under a version.
#[tactic(auto, unfolding(crate::specs::Reading::limits_at))]
pub fn limits(version: Version, bytes: &[u8]) -> Result<(Limits, &[u8]), LineFault>
    ensures gives { Gives (λ x. (x.0, x.1.now)) result (limits_at version bytes.now) }
    ensures err { IfErr result (λ e. e ≡ LineFault.NotALine) }
{
    let (turns, rest) = labelled(b" turns ", bytes)?;
    let (levels, rest) = labelled(b" levels ", rest)?;
    let (domain, rest) = labelled(b" domain ", rest)?;
    let (size, rest) = labelled(b" size ", rest)?;
    let limits = Limits {
        turns,
        levels,
        domain,
        size,
        version,
    };
    if !limits.valid() {
        return Err(LineFault::NotALine);
    }
    Ok((limits, rest))
}
