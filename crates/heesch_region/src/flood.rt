//! The flood of a window from outside, around the cells of a set.
ghost use Rattle.std.specs.Prelude.{◌≡◌, ◌<◌, ◌≤◌, ◌*◌, ◌+◌, ◌-◌, ◌⊎◌, ◌==◌, ℕ, Bool, true, false, not, ◌&&◌, List};
ghost use Rattle.std.specs.Prelude.{length, vec_len, sum, IfOk, OnOk};
ghost use Rattle.std.specs.Int.{bit_at};
ghost use Rattle.heesch_grid.specs.declared.Cell.{Cell};
ghost use Rattle.heesch_grid.specs.Listing.{ListsExactly};
ghost use Rattle.heesch_grid.specs.Cells.{cell_before};
ghost use Rattle.heesch_grid.specs.Geometry.{Adjacent, IsCell};
ghost use Rattle.heesch_grid.specs.Hole.{IsHoleFree, IsGreatestHole};
ghost use Rattle.heesch_region.specs.Windows.{bits, wide, size, is_inner, is_marked, cell_of};
ghost use Rattle.heesch_region.specs.Marks.{AreMarksOf, IsListed};
ghost use Rattle.heesch_region.specs.Floods.{IsNarrowed, IsSettled, counted};

use crate::bits::{are_clear, narrow};
use crate::window::Window;
use heesch_grid::{Cell, Grid};
use heesch_io::{NoMemory, Seq};
use std::alloc::Global;

/// A word of the marks of all cells inside the border.
fn first_word<G: Grid>(window: Window, number: usize) -> u64
    requires unit { window.unit ≡ G.geometry.unit }
    requires number { number < size window }
    ensures { (j : ℕ) → j < 64 → (bit_at result j == 1)
        ≡ (is_inner window (cell_of window (64 * number + j)) && G.geometry.is_cell
        (cell_of window (64 * number + j))) }
{
    let at = number % window.words;
    if at == 0 || at + 1 == window.words {
        return 0;
    }
    let strip = number / window.words;
    if !window.has_strip(strip) {
        return 0;
    }
    if G::is_cell(window.first(strip)) {
        u64::MAX
    } else {
        0
    }
}

/// The marks of all cells inside the border.
fn all_cells<G: Grid>(alloc: Global, window: Window) -> Result<Vec<u64>, NoMemory>
    requires { window.unit ≡ G.geometry.unit }
    ensures long { IfOk result (λ words. vec_len words ≡ size window) }
    ensures marks { IfOk result (λ words. (c : Cell) → is_marked window words.items c
        ≡ (is_inner window c && G.geometry.is_cell c)) }
{
    let mut words = Vec::new(alloc);
    for number in 0..window.size() {
        words.push(first_word::<G>(window, number))?;
    }
    Ok(words)
}

/// Clears the marks of those cells of a strip that aren't taken and have an adjacent cell without a mark. Answers
/// whether a mark was cleared.
fn narrow_strip<G: Grid>(window: Window, kept: &mut [u64], taken: &[u64], strip: usize) -> bool
    requires unit { window.unit ≡ G.geometry.unit }
    requires long { length kept.old ≡ size window }
    requires taken_long { length taken.now ≡ size window }
    requires from { 4 * window.unit ≤ strip }
    requires to { strip + 4 * window.unit < window.tall * window.unit }
    requires cells { (c : Cell) → is_marked window kept.old c ≡ true → is_inner window c ≡ true × IsCell G.geometry c }
    ensures narrowed { IsNarrowed G.geometry (is_marked window taken.now) (is_marked window kept.old)
        (is_marked window kept.new) }
    ensures fewer { result ≡ true → sum kept.new < sum kept.old }
    ensures same { result ≡ false → kept.new ≡ kept.old }
    ensures settled { result ≡ false
        → IsSettled G.geometry window (is_marked window taken.now) (is_marked window kept.old) strip }
{
    let first = window.first(strip);
    if !G::is_cell(first) {
        return false;
    }
    let mut cleared = false;
    for i in 0..G::ADJACENT {
        let from = window.place(G::adjacent(first, i));
        cleared |= narrow(
            kept,
            taken,
            strip * window.words + 1,
            from,
            window.words - 2,
        );
    }
    cleared
}

/// A number counted from the front or from the back.
fn counted(upward: bool, count: usize, number: usize) -> usize
    requires { number < count }
    ensures { result ≡ counted upward count number }
{
    if upward { count - 1 - number } else { number }
}

/// Narrows each strip inside the border, from the first on or from the last back. Answers whether a mark was cleared.
fn sweep<G: Grid>(window: Window, kept: &mut [u64], taken: &[u64], upward: bool) -> bool
    requires unit { window.unit ≡ G.geometry.unit }
    requires long { length kept.old ≡ size window }
    requires taken_long { length taken.now ≡ size window }
    requires cells { (c : Cell) → is_marked window kept.old c ≡ true → is_inner window c ≡ true × IsCell G.geometry c }
    ensures narrowed { IsNarrowed G.geometry (is_marked window taken.now) (is_marked window kept.old)
        (is_marked window kept.new) }
    ensures fewer { result ≡ true → sum kept.new < sum kept.old }
    ensures same { result ≡ false → kept.new ≡ kept.old }
    ensures settled { result ≡ false → (strip : ℕ) → 4 * window.unit ≤ strip
        → strip + 4 * window.unit < window.tall * window.unit
        → IsSettled G.geometry window (is_marked window taken.now) (is_marked window kept.old) strip }
{
    let count = (window.tall - 8) * window.unit;
    let mut cleared = false;
    for number in 0..count {
        let strip = 4 * window.unit + counted(upward, count, number);
        cleared |= narrow_strip::<G>(window, kept, taken, strip);
    }
    cleared
}

/// Clears marks until each cell with a mark is taken or has marks on all its adjacent cells. The sweeps go down and up
/// by turns; each but the last clears a mark.
fn flood<G: Grid>(window: Window, kept: &mut [u64], taken: &[u64])
    requires unit { window.unit ≡ G.geometry.unit }
    requires long { length kept.old ≡ size window }
    requires taken_long { length taken.now ≡ size window }
    requires cells { (c : Cell) → is_marked window kept.old c ≡ true → is_inner window c ≡ true × IsCell G.geometry c }
    ensures narrowed { IsNarrowed G.geometry (is_marked window taken.now) (is_marked window kept.old)
        (is_marked window kept.new) }
    ensures settled { (c d : Cell) → is_marked window kept.new c ≡ true → Adjacent G.geometry c d
        → (is_marked window taken.now c ≡ true) ⊎ (is_marked window kept.new d ≡ true) }
{
    let mut upward = false;
    while sweep::<G>(window, kept, taken, upward) {
        upward = !upward;
    }
}

/// Whether c is marked and not taken.
fn is_left(window: Window, kept: &[u64], taken: &[u64], c: Cell) -> bool
    requires long { length kept.now ≡ size window }
    requires taken_long { length taken.now ≡ size window }
    ensures { result ≡ (is_marked window kept.now c && not (is_marked window taken.now c)) }
{
    window.is_marked(kept, c) && !window.is_marked(taken, c)
}

/// Lists the pairs of a row that are marked and not taken.
fn list_row(
    cells: &mut Seq<Cell>,
    window: Window,
    kept: &[u64],
    taken: &[u64],
    row: usize,
) -> Result<(), NoMemory>
    requires long { length kept.now ≡ size window }
    requires taken_long { length taken.now ≡ size window }
    requires row { row < window.tall }
    requires listed { IsListed window kept.now taken.now (row * wide window) cells.old }
    ensures { OnOk result (IsListed window kept.now taken.now ((row + 1) * wide window) cells.new) }
{
    for column in 0..64 * window.words * window.unit {
        let c = window.pair(row, column);
        if is_left(window, kept, taken, c) {
            cells.push(c)?;
        }
    }
    Ok(())
}

/// The pairs that are marked and not taken, in cell order.
fn listed(alloc: Global, window: Window, kept: &[u64], taken: &[u64]) -> Result<Seq<Cell>, NoMemory>
    requires long { length kept.now ≡ size window }
    requires taken_long { length taken.now ≡ size window }
    ensures { IfOk result
        (ListsExactly cell_before (λ c. (is_marked window kept.now c && not (is_marked window taken.now c)) ≡ true)) }
{
    let mut cells = Seq::new(alloc);
    let words = window.unit * window.words;
    for row in 0..window.tall {
        if !are_clear(kept, taken, row * words, (row + 1) * words) {
            list_row(&mut cells, window, kept, taken, row)?;
        }
    }
    Ok(cells)
}

/// Floods, and lists what is left.
fn left_over<G: Grid>(
    alloc: Global,
    window: Window,
    kept: &mut [u64],
    taken: &[u64],
) -> Result<Seq<Cell>, NoMemory>
    requires long { length kept.old ≡ size window }
    requires unit { window.unit ≡ G.geometry.unit }
    requires taken_long { length taken.now ≡ size window }
    requires all { (c : Cell) → is_marked window kept.old c ≡ (is_inner window c && G.geometry.is_cell c) }
    ensures hole { IfOk result (λ hole. (cells : List Cell) → AreMarksOf G.geometry window cells taken.now
        → IsGreatestHole G.geometry cells hole) }
    ensures none { IfOk result (λ hole. (cells : List Cell) → AreMarksOf G.geometry window cells taken.now
        → length hole ≡ 0 → IsHoleFree G.geometry cells) }
{
    flood::<G>(window, kept, taken);
    listed(alloc, window, kept, taken)
}

/// The cells of all holes of the set that is taken, in cell order.
pub(crate) fn enclosed<G: Grid>(
    alloc: Global,
    window: Window,
    taken: &[u64],
) -> Result<Seq<Cell>, NoMemory>
    requires unit { window.unit ≡ G.geometry.unit }
    requires taken_long { length taken.now ≡ size window }
    ensures hole { IfOk result (λ hole. (cells : List Cell) → AreMarksOf G.geometry window cells taken.now
        → IsGreatestHole G.geometry cells hole) }
    ensures none { IfOk result (λ hole. (cells : List Cell) → AreMarksOf G.geometry window cells taken.now
        → length hole ≡ 0 → IsHoleFree G.geometry cells) }
{
    let mut kept = all_cells::<G>(alloc, window)?;
    left_over::<G>(alloc, window, &mut kept, taken)
}
