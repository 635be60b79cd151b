//! One line of a model text.
ghost use Rattle.std.specs.Prelude.{◌≡◌, ◌≤◌, ◌<◌, ◌^◌, ◌∷◌, ◌++◌, ℕ, List, codes, IsTrue, ◌↔◌, MatchOption};
ghost use Rattle.std.specs.Prelude.{MatchResult, ◌≢◌, decimal};
ghost use Rattle.heesch_cnf.specs.declared.literal.Lit.{Lit};
ghost use Rattle.heesch_exchange.specs.declared.lines.LineFault.TheVariants as faults;
ghost use Rattle.heesch_exchange.specs.declared.lines.Place.TheVariants as places;
ghost use Rattle.heesch_text.specs.Fields.{lit_text};
ghost use Rattle.heesch_line.specs.Forms.{IsLiteral, HasNoNewline};
ghost use Rattle.heesch_line.specs.Scanning.{HasNoSpace};
ghost use Rattle.heesch_exchange.specs.Models.{is_comment, is_spaced, status_line};
ghost use Rattle.heesch_exchange.specs.Lines.{begins_number, LineAnswer, ValuesAnswer, WordsAnswer};

use heesch_cnf::Lit;
use heesch_io::{NoMemory, Seq};
use std::str;

/// Which answer comes next, comments aside.
#[derive(Clone, Copy, Debug, PartialEq, Eq)]
pub enum Place {
    /// The line `s SATISFIABLE`.
    Start,
    /// A line `v`.
    Values,
    /// None.
    End,
}

/// Why a line isn't read.
#[derive(Clone, Copy, Debug, PartialEq, Eq)]
pub enum LineFault {
    /// No such line may stand there.
    NotText,
    /// Memory was refused.
    NoMemory,
}

impl From<NoMemory> for LineFault {
    ghost from_gives = { λ _ e. e ≡ faults.NoMemory };

    fn from(_error: NoMemory) -> LineFault {
        LineFault::NoMemory
    }
}

/// The first line without its newline, and the bytes behind it; None where there is no newline. Nothing is copied; the
/// cost is the line's length.
pub fn cut_line(text: &[u8]) -> Option<(&[u8], &[u8])>
    ensures { MatchOption result (HasNoNewline text.now)
        (λ x. (text.now ≡ x.0.now ++ 10 ∷ x.1.now) × HasNoNewline x.0.now) }
{
    let end = text.iter().position(|byte| *byte == b'\n')?;
    Some((&text[..end], &text[end + 1..]))
}

/// The bytes up to the first space or to the end, and those from there on.
fn cut_word(bytes: &[u8]) -> (&[u8], &[u8])
    ensures parts { bytes.now ≡ result.0.now ++ result.1.now }
    ensures whole { HasNoSpace result.0.now }
    ensures rest { IsTrue (is_spaced result.1.now) }
{
    match bytes.iter().position(|byte| *byte == b' ') {
        Some(end) => bytes.split_at(end),
        None => bytes.split_at(bytes.len()),
    }
}

/// The bytes behind this one, where it is the first.
fn after(byte: u8, bytes: &[u8]) -> Option<&[u8]>
    ensures { MatchOption result ((rest : List ℕ) → bytes.now ≢ byte ∷ rest) (λ rest. bytes.now ≡ byte ∷ rest.now) }
{
    match bytes {
        [first, rest @ ..] if *first == byte => Some(rest),
        _ => None,
    }
}

/// Whether the word is `0`.
fn is_zero(word: &[u8]) -> bool
    ensures { IsTrue result ↔ (word.now ≡ codes "0") }
{
    word == b"0".as_slice()
}

/// Whether the line is `c` alone, or `c` and a space first.
fn is_comment(line: &[u8]) -> bool
    ensures { result ≡ is_comment line.now }
{
    match line {
        [b'c'] => true,
        [b'c', b' ', ..] => true,
        _ => false,
    }
}

/// The literal that a word is: the number of its variable, from 1, with `-` before it where it is negative.
fn read_literal(word: &[u8]) -> Option<Lit>
    ensures { MatchOption result ((l : Lit) → IsLiteral l → lit_text l ≡ word.now → ⊥)
        (λ l. IsLiteral l × (lit_text l ≡ word.now)) }
{
    match after(b'-', word) {
        Some(digits) => Some(Lit {
            var: read_variable(digits)?,
            positive: false,
        }),
        None => Some(Lit {
            var: read_variable(word)?,
            positive: true,
        }),
    }
}

/// The number from 1 that decimal digits write without a leading zero, where it fits 32 bits.
fn read_variable(digits: &[u8]) -> Option<u32>
    ensures { MatchOption result ((n : ℕ) → 1 ≤ n → n < 2 ^ 32 → decimal n ≡ digits.now → ⊥)
        (λ n. (1 ≤ n) × (decimal n ≡ digits.now)) }
{
    if !begins_number(digits) {
        return None;
    }
    match str::from_utf8(digits) {
        Ok(text) => text.parse::<u32>().ok(),
        Err(_) => None,
    }
}

/// Whether the first byte is a digit from 1.
fn begins_number(bytes: &[u8]) -> bool
    ensures { result ≡ begins_number bytes.now }
{
    match bytes {
        [first, ..] => b'0' < *first && *first <= b'9',
        [] => false,
    }
}

/// Appends the literals of the words of a line, each of which has a space before it, and answers whether a last `0` is
/// behind them.
fn read_words(words: &[u8], literals: &mut Seq<Lit>) -> Result<bool, LineFault>
    ensures { WordsAnswer words.now literals.old literals.new result }
{
    let mut rest = words;
    while let Some(bytes) = after(b' ', rest) {
        let (word, behind) = cut_word(bytes);
        if is_zero(word) {
            return if behind.is_empty() {
                Ok(true)
            } else {
                Err(LineFault::NotText)
            };
        }
        let Some(literal) = read_literal(word) else {
            return Err(LineFault::NotText);
        };
        literals.push(literal)?;
        rest = behind;
    }
    if rest.is_empty() {
        Ok(false)
    } else {
        Err(LineFault::NotText)
    }
}

/// The place after the line `s SATISFIABLE`.
fn read_status(line: &[u8]) -> Result<Place, LineFault>
    ensures { MatchResult result (λ next. (line.now ≡ status_line) × (next ≡ places.Values))
        (λ fault. (fault ≡ faults.NotText) × (line.now ≢ status_line)) }
{
    if line == b"s SATISFIABLE".as_slice() {
        Ok(Place::Values)
    } else {
        Err(LineFault::NotText)
    }
}

/// Appends the literals of a line `v`, and answers whether `0` ends it.
fn read_values(line: &[u8], literals: &mut Seq<Lit>) -> Result<bool, LineFault>
    ensures { ValuesAnswer line.now literals.old literals.new result }
{
    match after(b'v', line) {
        Some(words) => read_words(words, literals),
        None => Err(LineFault::NotText),
    }
}

/// Appends the literals of a line that stands at this place, and answers which place comes next.
pub fn read_line(place: Place, line: &[u8], literals: &mut Seq<Lit>) -> Result<Place, LineFault>
    ensures { LineAnswer place line.now literals.old literals.new result }
{
    if is_comment(line) {
        return Ok(place);
    }
    match place {
        Place::Start => read_status(line),
        Place::Values => match read_values(line, literals) {
            Ok(true) => Ok(Place::End),
            Ok(false) => Ok(Place::Values),
            Err(fault) => Err(fault),
        },
        Place::End => Err(LineFault::NotText),
    }
}
