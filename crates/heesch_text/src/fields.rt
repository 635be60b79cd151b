//! The fields of a line, added at the end of a text. Where memory runs out, the text keeps what it had.
ghost use Rattle.std.specs.Prelude.{◌≡◌, ◌++◌, ◌∷◌, [], ℕ, List, length, take, OnOk, OnErr, ⊤, codes, decimal};
ghost use Rattle.std.specs.List.{AllByRecursion};
ghost use Rattle.std.specs.Fmt.{signed_decimal};
ghost use Rattle.heesch_text.specs.Naturals.{IsNatural};
ghost use Rattle.heesch_text.specs.Fields.{spaced, cell_text, cells_text, triple_text, iso_text, place_text, lit_text};

use heesch_cnf::{Lit, PackedLit};
use heesch_grid::{Cell, Iso};
use heesch_io::NoMemory;
use heesch_lattice::Triple;
use itoa::Buffer;

/// The bytes stand last.
pub fn append_bytes(bytes: &[u8], out: &mut Vec<u8>) -> Result<(), NoMemory>
    ensures ok { OnOk result (out.new.items ≡ out.old.items ++ bytes.now) }
    ensures kept { take (length out.old.items) out.new.items ≡ out.old.items }
{
    out.extend_from_slice(bytes)?;
    Ok(())
}

/// The byte stands last.
pub fn append_byte(byte: u8, out: &mut Vec<u8>) -> Result<(), NoMemory>
    ensures ok { OnOk result (out.new.items ≡ out.old.items ++ byte ∷ []) }
    ensures kept { take (length out.old.items) out.new.items ≡ out.old.items }
{
    out.push(byte)?;
    Ok(())
}

/// Takes back what was written behind the first `before` bytes where memory ran out in it. Answers what was answered
/// there.
pub fn undone_at_error(
    before: usize,
    written: Result<(), NoMemory>,
    out: &mut Vec<u8>,
) -> Result<(), NoMemory>
    ensures same { result ≡ written }
    ensures ok { OnOk result (out.new.items ≡ out.old.items) }
    ensures err { OnErr result (out.new.items ≡ take before out.old.items) }
{
    if written.is_err() {
        out.truncate(before);
    }
    written
}

/// A natural number in decimal digits.
pub fn append_number(number: u32, out: &mut Vec<u8>) -> Result<(), NoMemory>
    ensures ok { OnOk result (out.new.items ≡ out.old.items ++ decimal number) }
    ensures kept { take (length out.old.items) out.new.items ≡ out.old.items }
{
    append_bytes(Buffer::new().format(number).as_bytes(), out)
}

/// An integer in decimal digits, with `-` before it where it is negative.
pub fn append_integer(number: i32, out: &mut Vec<u8>) -> Result<(), NoMemory>
    ensures ok { OnOk result (out.new.items ≡ out.old.items ++ signed_decimal number) }
    ensures kept { take (length out.old.items) out.new.items ≡ out.old.items }
{
    append_bytes(Buffer::new().format(number).as_bytes(), out)
}

/// The bytes, and a number behind them.
pub fn append_labelled(label: &[u8], number: u32, out: &mut Vec<u8>) -> Result<(), NoMemory>
    ensures ok { OnOk result (out.new.items ≡ out.old.items ++ (label.now ++ decimal number)) }
    ensures kept { take (length out.old.items) out.new.items ≡ out.old.items }
    ensures natural { IsNatural number }
{
    append_bytes(label, out)?;
    append_number(number, out)
}

/// Two integers with a byte between them.
fn append_pair(first: i32, between: u8, second: i32, out: &mut Vec<u8>) -> Result<(), NoMemory>
    ensures ok { OnOk result (out.new.items
        ≡ out.old.items ++ (signed_decimal first ++ (between ∷ []) ++ signed_decimal second)) }
    ensures kept { take (length out.old.items) out.new.items ≡ out.old.items }
{
    append_integer(first, out)?;
    append_byte(between, out)?;
    append_integer(second, out)
}

/// The numbers of an isometry with a byte between them.
fn append_motion(iso: Iso, between: u8, out: &mut Vec<u8>) -> Result<(), NoMemory>
    ensures ok { OnOk result (out.new.items
        ≡ out.old.items ++ (decimal iso.turn ++ (between ∷ []) ++ signed_decimal iso.da ++
        (between ∷ []) ++ signed_decimal iso.db)) }
    ensures kept { take (length out.old.items) out.new.items ≡ out.old.items }
{
    append_number(iso.turn, out)?;
    append_byte(between, out)?;
    append_pair(iso.da, between, iso.db, out)
}

/// An isometry as `TURN DA DB`.
pub fn append_iso(iso: Iso, out: &mut Vec<u8>) -> Result<(), NoMemory>
    ensures ok { OnOk result (out.new.items ≡ out.old.items ++ iso_text iso) }
    ensures kept { take (length out.old.items) out.new.items ≡ out.old.items }
{
    append_motion(iso, b' ', out)
}

/// A word of a list within a line: its text, and that its natural number, if it has one, fits 32 bits.
pub trait Word: Copy {
    ghost text: { Self → List ℕ };

    ghost fits: { Self → Type 0 };

    fn append_word(self, out: &mut Vec<u8>) -> Result<(), NoMemory>
        ensures ok { OnOk result (out.new.items ≡ out.old.items ++ text self) }
        ensures kept { take (length out.old.items) out.new.items ≡ out.old.items }
        ensures natural { fits self };
}

/// A natural number.
impl Word for u32 {
    ghost text = { decimal };

    ghost fits = { IsNatural };

    fn append_word(self, out: &mut Vec<u8>) -> Result<(), NoMemory> {
        append_number(self, out)
    }
}

/// A cell as `A,B`.
impl Word for Cell {
    ghost text = { cell_text };

    ghost fits = { λ _. ⊤ };

    fn append_word(self, out: &mut Vec<u8>) -> Result<(), NoMemory> {
        append_pair(self.a, b',', self.b, out)
    }
}

/// A literal as the number of its variable, with `-` before it where it is negative.
impl Word for Lit {
    ghost text = { lit_text };

    ghost fits = { λ l. IsNatural l.var };

    fn append_word(self, out: &mut Vec<u8>) -> Result<(), NoMemory> {
        if !self.positive {
            append_byte(b'-', out)?;
        }
        append_number(self.var, out)
    }
}

/// A packed literal, as the literal is written.
impl Word for PackedLit {
    ghost text = { lit_text };

    ghost fits = { λ l. IsNatural l.var };

    fn append_word(self, out: &mut Vec<u8>) -> Result<(), NoMemory> {
        self.lit().append_word(out)
    }
}

/// A place as `TURN,DA,DB`.
impl Word for Iso {
    ghost text = { place_text };

    ghost fits = { λ i. IsNatural i.turn };

    fn append_word(self, out: &mut Vec<u8>) -> Result<(), NoMemory> {
        append_motion(self, b',', out)
    }
}

/// Each item behind a space.
#[tactic(auto, using(crate::proofs::Kept::kept_through))]
pub fn append_spaced<W: Word>(items: &[W], out: &mut Vec<u8>) -> Result<(), NoMemory>
    ensures ok { OnOk result (out.new.items ≡ out.old.items ++ spaced W.text items.now) }
    ensures kept { take (length out.old.items) out.new.items ≡ out.old.items }
    ensures fit { OnOk result (AllByRecursion W.fits items.now) }
{
    for item in items {
        append_byte(b' ', out)?;
        item.append_word(out)?;
    }
    Ok(())
}

/// The cells with single spaces between them.
pub fn append_cells(cells: &[Cell], out: &mut Vec<u8>) -> Result<(), NoMemory>
    ensures ok { OnOk result (out.new.items ≡ out.old.items ++ cells_text cells.now) }
    ensures kept { take (length out.old.items) out.new.items ≡ out.old.items }
{
    if let [first, others @ ..] = cells {
        first.append_word(out)?;
        append_spaced(others, out)?;
    }
    Ok(())
}

/// A triple as `P Q S`.
pub fn append_triple(triple: &Triple, out: &mut Vec<u8>) -> Result<(), NoMemory>
    ensures ok { OnOk result (out.new.items ≡ out.old.items ++ triple_text triple.now) }
    ensures kept { take (length out.old.items) out.new.items ≡ out.old.items }
{
    append_number(triple.p, out)?;
    append_byte(b' ', out)?;
    append_number(triple.q, out)?;
    append_byte(b' ', out)?;
    append_number(triple.s, out)
}
