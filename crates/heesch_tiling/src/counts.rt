//! How often the reduced cells stand among those of tiles, in one number for each pair of the
//! window.
ghost use Rattle.std.specs.Prelude.{◌≡◌, ◌<◌, ◌≤◌, ◌+◌, ◌*◌, ◌^◌, ℕ, true, false, length, slice_index, IfSome, IfNone};
ghost use Rattle.std.specs.Prelude.{All, [], ◌↔◌};
ghost use Rattle.heesch_grid.specs.declared.Cell.{Cell};
ghost use Rattle.heesch_grid.specs.Cells.{has};
ghost use Rattle.heesch_grid.specs.Geometry.{IsCell};
ghost use Rattle.heesch_grid.specs.Vectors.{IsWithin};
ghost use Rattle.heesch_tiling.specs.Counting.{residues, tile_residues, window_size, IsInRange, AreCounts, AddsCounts};
ghost use Rattle.heesch_tiling.specs.Counting.{HasRepeat, is_amiss_at, IsFirstNumber, IsFull};

use crate::window::{pair_at, residue_number};
use heesch_grid::{Cell, Grid, Iso};
use heesch_lattice::Triple;

/// Counts the reduced cells of one tile.
fn count_tile<G: Grid>(counts: &mut [u16], cells: &[Cell], triple: Triple, by: Iso)
    requires all { length counts.old ≡ window_size G.geometry triple }
    requires room { (k : ℕ) → k < length counts.old → slice_index counts.old k + length cells.now < 2 ^ 16 }
    requires range { IsInRange G.geometry by }
    requires cells { (c : Cell) → has cells.now c ≡ true → IsCell G.geometry c × IsWithin 100000 c }
    ensures { AddsCounts G.geometry triple (tile_residues G.geometry cells.now triple by) counts.old counts.new }
{
    for c in cells {
        let k = residue_number::<G>(triple, by, *c);
        counts[k] += 1;
    }
}

/// Counts the reduced cells of tiles.
pub(crate) fn count_tiles<G: Grid>(
    counts: &mut [u16],
    cells: &[Cell],
    triple: Triple,
    places: &[Iso],
)
    requires none { AreCounts G.geometry triple [] counts.old }
    requires few { length cells.now * length places.now ≤ 384 }
    requires range { All (IsInRange G.geometry) places.now }
    requires cells { (c : Cell) → has cells.now c ≡ true → IsCell G.geometry c × IsWithin 100000 c }
    ensures { AreCounts G.geometry triple (residues G.geometry cells.now triple places.now) counts.new }
{
    for by in places {
        count_tile::<G>(counts, cells, triple, *by);
    }
}

/// Marks the reduced cells of one tile, up to the first that is marked already. Whether none was.
pub(crate) fn mark_tile<G: Grid>(marks: &mut [u16], cells: &[Cell], triple: Triple, by: Iso) -> bool
    requires all { length marks.old ≡ window_size G.geometry triple }
    requires range { IsInRange G.geometry by }
    requires cells { (c : Cell) → has cells.now c ≡ true → IsCell G.geometry c × IsWithin 100000 c }
    ensures same { length marks.new ≡ length marks.old }
    ensures marked { result ≡ true
        → AddsCounts G.geometry triple (tile_residues G.geometry cells.now triple by) marks.old marks.new }
    ensures repeated { result ≡ false
        → HasRepeat G.geometry triple (tile_residues G.geometry cells.now triple by) marks.old }
{
    for c in cells {
        let k = residue_number::<G>(triple, by, *c);
        if marks[k] != 0 {
            return false;
        }
        marks[k] = 1;
    }
    true
}

/// Whether the k-th pair is a cell, and its count is below low or above most.
fn is_amiss<G: Grid>(counts: &[u16], triple: Triple, low: u16, most: u16, k: usize) -> bool
    requires all { length counts.now ≡ window_size G.geometry triple }
    requires below { k < length counts.now }
    requires few { k ≤ 1000000 }
    ensures { result ≡ is_amiss_at G.geometry triple counts.now low most k }
{
    let count = counts[k];
    G::is_cell(pair_at::<G>(triple, k)) && (count < low || most < count)
}

/// The first cell of the window whose count is below low or above most.
pub(crate) fn first_amiss<G: Grid>(
    counts: &[u16],
    triple: Triple,
    low: u16,
    most: u16,
) -> Option<Cell>
    requires all { length counts.now ≡ window_size G.geometry triple }
    requires few { length counts.now ≤ 1000000 }
    ensures found { IfSome result
        (IsFirstNumber G.geometry triple (is_amiss_at G.geometry triple counts.now low most)) }
    ensures none { IfNone result
        ((k : ℕ) → k < window_size G.geometry triple → is_amiss_at G.geometry triple counts.now low most k ≡ false) }
{
    for k in 0..counts.len() {
        if is_amiss::<G>(counts, triple, low, most, k) {
            return Some(pair_at::<G>(triple, k));
        }
    }
    None
}

/// Whether each cell of the window counts once.
pub(crate) fn is_full<G: Grid>(counts: &[u16], triple: Triple) -> bool
    requires all { length counts.now ≡ window_size G.geometry triple }
    requires few { length counts.now ≤ 1000000 }
    ensures { (result ≡ true) ↔ IsFull G.geometry triple counts.now }
{
    first_amiss::<G>(counts, triple, 1, 1).is_none()
}
