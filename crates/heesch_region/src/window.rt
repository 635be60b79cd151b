//! A window of the plane, and marks of its pairs.
ghost use Rattle.std.specs.Prelude.{◌≡◌, ◌↔◌, IsTrue, ◌<◌, ◌≤◌, ◌*◌, ◌+◌, ◌-◌, ◌/◌, ◌%◌, ◌≤ℤ◌, ◌+ℤ◌, ◌-ℤ◌, ℕ, Bool};
ghost use Rattle.std.specs.Prelude.{true, false, ◌||◌, neg_ℤ, nat_abs, pos, length, vec_len, IfOk};
ghost use Rattle.std.specs.Int.{int_min, int_max};
ghost use Rattle.heesch_grid.specs.declared.Cell.{Cell};
ghost use Rattle.heesch_grid.specs.Cells.{has, same_cell};
ghost use Rattle.heesch_grid.specs.Vectors.{IsWithin};

use crate::bits::{has_bit, set_bit};
use heesch_grid::{Cell, Grid};
use heesch_io::NoMemory;
use std::alloc::Global;

/// The pairs from `low` on, in `tall` rows. A row has `unit` strips, one for each rest of columns, and a strip `words`
/// words of 64 bits. The first and the last word of each strip, and four rows at either end, are a border around the
/// pairs that matter: what is adjacent to one of those lies in the window.
#[derive(Clone, Copy)]
pub(crate) struct Window {
    pub low: Cell,
    pub words: usize,
    pub tall: usize,
    pub unit: usize,
    ghost some: { 1 ≤ unit },
    ghost few: { unit ≤ 6 },
    ghost border: { 3 ≤ words },
    ghost narrow: { words ≤ 68 },
    ghost rows: { 9 ≤ tall },
    ghost short: { tall ≤ 4105 },
    ghost low_a: { neg_ℤ (pos 1000000) ≤ℤ (low.a +ℤ pos (64 * unit)) },
    ghost high_a: { (low.a +ℤ pos (64 * unit)) ≤ℤ pos 999990 },
    ghost low_b: { neg_ℤ (pos 1000000) ≤ℤ (low.b +ℤ pos 4) },
    ghost high_b: { (low.b +ℤ pos tall) ≤ℤ pos 1000005 },
}

/// The first cell, or the origin where there is none.
fn first_or_origin(cells: &[Cell]) -> Cell
    requires { (c : Cell) → has cells.now c ≡ true → IsWithin 1000000 c }
    ensures first { 0 < length cells.now → has cells.now result ≡ true }
    ensures near { IsWithin 1000000 result }
{
    if cells.is_empty() {
        return Cell { a: 0, b: 0 };
    }
    cells[0]
}

/// The least and the greatest coordinates of some cells.
#[derive(Clone, Copy)]
struct Span {
    low: Cell,
    high: Cell,
}

/// The span with one more cell.
fn with(span: Span, c: Cell) -> Span
    ensures low_a { result.low.a ≡ int_min span.low.a c.a }
    ensures low_b { result.low.b ≡ int_min span.low.b c.b }
    ensures high_a { result.high.a ≡ int_max span.high.a c.a }
    ensures high_b { result.high.b ≡ int_max span.high.b c.b }
{
    Span {
        low: Cell {
            a: span.low.a.min(c.a),
            b: span.low.b.min(c.b),
        },
        high: Cell {
            a: span.high.a.max(c.a),
            b: span.high.b.max(c.b),
        },
    }
}

/// How far it is from one number to another.
fn distance(low: i32, high: i32) -> usize
    requires order { low ≤ℤ high }
    requires from { neg_ℤ (pos 1000000) ≤ℤ low }
    requires to { high ≤ℤ pos 1000000 }
    ensures { pos result ≡ (high -ℤ low) }
{
    high.abs_diff(low) as usize
}

/// The first column inside the border: at most 999,990, so that its cells and the next 5 lie within 1,000,000.
fn first_column(a: i32) -> i32
    ensures { result ≡ int_min a (pos 999990) }
{
    a.min(999_990)
}

/// The first column of the border, 64 units before.
fn border_column(first: i32, unit: usize) -> i32
    requires few { unit ≤ 6 }
    requires from { neg_ℤ (pos 1000000) ≤ℤ first }
    requires to { first ≤ℤ pos 1000000 }
    ensures { (result +ℤ pos (64 * unit)) ≡ first }
{
    first - 64 * unit as i32
}

/// The first row of the border, four rows before.
fn border_row(first: i32) -> i32
    requires { neg_ℤ (pos 1000000) ≤ℤ first }
    ensures { (result +ℤ pos 4) ≡ first }
{
    first - 4
}

impl Window {
    ghost use Rattle.heesch_region.specs.Windows.{column, row, is_inside, is_inner, place, order, bits, wide, size};
    ghost use Rattle.heesch_region.specs.Windows.{cell_of, is_marked};
    ghost use Rattle.heesch_region.specs.Spans.{IsBetween};

    /// A window with all pairs from `low` to `high` inside its border.
    fn between(low: Cell, high: Cell, unit: usize) -> Window
        requires some { 1 ≤ unit }
        requires few { unit ≤ 6 }
        requires low_near { IsWithin 1000000 low }
        requires high_near { IsWithin 1000000 high }
        requires order_a { low.a ≤ℤ high.a }
        requires order_b { low.b ≤ℤ high.b }
        requires span_a { high.a ≤ℤ (low.a +ℤ pos 4096) }
        requires span_b { high.b ≤ℤ (low.b +ℤ pos 4096) }
        ensures unit { result.unit ≡ unit }
        ensures inner { (c : Cell) → IsBetween low high c → is_inner result c ≡ true }
    {
        let first = first_column(low.a);
        let columns = distance(first, high.a);
        let rows = distance(low.b, high.b);
        Window {
            low: Cell {
                a: border_column(first, unit),
                b: border_row(low.b),
            },
            words: columns / unit / 64 + 3,
            tall: rows + 9,
            unit,
        }
    }

    /// A window with all these cells inside its border.
    pub(crate) fn around<G: Grid>(cells: &[Cell]) -> Window
        requires near { (c : Cell) → has cells.now c ≡ true → IsWithin 1000000 c }
        requires together { (c d : Cell) → has cells.now c ≡ true → has cells.now d ≡ true
            → (d.a ≤ℤ (c.a +ℤ pos 4096)) × (d.b ≤ℤ (c.b +ℤ pos 4096)) }
        ensures unit { result.unit ≡ G.geometry.unit }
        ensures inner { (c : Cell) → has cells.now c ≡ true → is_inner result c ≡ true }
    {
        let first = first_or_origin(cells);
        let mut span = Span {
            low: first,
            high: first,
        };
        for c in cells {
            span = with(span, *c);
        }
        Window::between(span.low, span.high, G::UNIT as usize)
    }

    /// How many words hold its marks.
    pub(crate) fn size(self) -> usize
        ensures { result ≡ size self }
    {
        self.tall * self.unit * self.words
    }

    /// How far c is from the first column.
    fn column(self, c: Cell) -> usize
        ensures { result ≡ column self c }
    {
        c.a.abs_diff(self.low.a) as usize
    }

    /// How far c is from the first row.
    fn row(self, c: Cell) -> usize
        ensures { result ≡ row self c }
    {
        c.b.abs_diff(self.low.b) as usize
    }

    /// Whether it has c.
    pub(crate) fn contains(self, c: Cell) -> bool
        ensures { result ≡ is_inside self c }
    {
        if c.a < self.low.a || c.b < self.low.b {
            return false;
        }
        if self.column(c) >= 64 * self.words * self.unit {
            return false;
        }
        self.row(c) < self.tall
    }

    /// The bit of c.
    pub(crate) fn place(self, c: Cell) -> usize
        requires { is_inside self c ≡ true }
        ensures is { result ≡ place self c }
        ensures below { result < 64 * size self }
    {
        let column = self.column(c);
        let strip = self.row(c) * self.unit + column % self.unit;
        strip * (64 * self.words) + column / self.unit
    }

    /// Whether c is marked.
    pub(crate) fn is_marked(self, words: &[u64], c: Cell) -> bool
        requires { length words.now ≡ size self }
        ensures { result ≡ is_marked self words.now c }
    {
        self.contains(c) && has_bit(words, self.place(c))
    }

    /// Marks c.
    fn mark(self, words: &mut [u64], c: Cell)
        requires long { length words.old ≡ size self }
        requires inside { is_inside self c ≡ true }
        ensures { (d : Cell) → is_marked self words.new d ≡ (is_marked self words.old d || same_cell d c) }
    {
        set_bit(words, self.place(c));
    }

    /// Marks these cells.
    fn mark_all(self, words: &mut [u64], cells: &[Cell])
        requires long { length words.old ≡ size self }
        requires none { (c : Cell) → is_marked self words.old c ≡ false }
        requires inner { (c : Cell) → has cells.now c ≡ true → is_inner self c ≡ true }
        ensures { (c : Cell) → is_marked self words.new c ≡ has cells.now c }
    {
        for c in cells {
            self.mark(words, *c);
        }
    }

    /// The marks of these cells.
    pub(crate) fn marked(self, alloc: Global, cells: &[Cell]) -> Result<Vec<u64>, NoMemory>
        requires { (c : Cell) → has cells.now c ≡ true → is_inner self c ≡ true }
        ensures long { IfOk result (λ words. vec_len words ≡ size self) }
        ensures exact { IfOk result (λ words. (c : Cell) → is_marked self words.items c ≡ has cells.now c) }
    {
        let mut words = vec![in alloc; 0; self.size()]?;
        self.mark_all(&mut words, cells);
        Ok(words)
    }

    /// The pair in this row and column.
    pub(crate) fn pair(self, row: usize, column: usize) -> Cell
        requires row { row < self.tall }
        requires column { column < wide self }
        ensures inside { is_inside self result ≡ true }
        ensures order { order self result ≡ row * wide self + column }
    {
        Cell {
            a: self.low.a + column as i32,
            b: self.low.b + row as i32,
        }
    }

    /// Whether a strip lies inside the border.
    pub(crate) fn has_strip(self, strip: usize) -> bool
        ensures { IsTrue result ↔ (4 * self.unit ≤ strip) × (strip + 4 * self.unit < self.tall * self.unit) }
    {
        4 * self.unit <= strip && strip < (self.tall - 4) * self.unit
    }

    /// The first pair of a strip that isn't in the border.
    pub(crate) fn first(self, strip: usize) -> Cell
        requires from { 4 * self.unit ≤ strip }
        requires to { strip + 4 * self.unit < self.tall * self.unit }
        ensures is { result ≡ cell_of self (strip * bits self + 64) }
        ensures near { IsWithin 1000000 result }
    {
        Cell {
            a: self.low.a + (64 * self.unit + strip % self.unit) as i32,
            b: self.low.b + (strip / self.unit) as i32,
        }
    }
}
