//! The residue set of an image.
ghost use Rattle.std.specs.Prelude.{◌≡◌, List, true, false, IfSome};
ghost use Rattle.std.specs.Prelude.{IfNone, IsPermutation, IsSorted};
ghost use Rattle.heesch_grid.specs.declared.Cell.{Cell};
ghost use Rattle.heesch_grid.specs.Cells.{cell_cmp};
ghost use Rattle.heesch_grid.specs.TorusFormula.{GivesResidues};
ghost use Rattle.heesch_tiling.specs.Counting.{tile_residues};
ghost use Rattle.heesch_torus.specs.Repeats.{HasRepeat, HasNoRepeat};

use crate::near_iso::NearIso;
use crate::tiles::Tiles;
use arrayvec::ArrayVec;
use heesch_grid::{Cell, Grid};
use heesch_shape::CELLS_MAX;
use heesch_tiling::residue_of;

/// A residue set, in cell order.
pub type Residues = ArrayVec<Cell, CELLS_MAX>;

/// The reduced cells of the images of the cells, in the order of the cells.
fn reduced_image<G: Grid>(tiles: &Tiles<G>, by: &NearIso<G>) -> Residues
    ensures { result.items ≡ tile_residues G.geometry tiles.now.cells.now tiles.now.triple by.now.iso }
{
    let mut residues = ArrayVec::new();
    for c in tiles.cells {
        residues.push(residue_of::<G>(tiles.triple, by.iso, *c));
    }
    residues
}

/// The same cells in cell order.
fn sorted_image<G: Grid>(tiles: &Tiles<G>, by: &NearIso<G>) -> Residues
    ensures permutation { IsPermutation
        (tile_residues G.geometry tiles.now.cells.now tiles.now.triple by.now.iso) result.items }
    ensures sorted { IsSorted cell_cmp result.items }
{
    let mut residues = reduced_image(tiles, by);
    residues.sort_unstable();
    residues
}

/// Whether two cells that stand side by side are one.
fn has_repeat(cells: &[Cell]) -> bool
    ensures repeat { result ≡ true → HasRepeat cells.now }
    ensures none { result ≡ false → HasNoRepeat cells.now }
{
    for i in 1..cells.len() {
        if cells[i - 1] == cells[i] {
            return true;
        }
    }
    false
}

/// The residue set of the image: its reduced cells, where they are as many as the cells.
pub(crate) fn residues_of<G: Grid>(tiles: &Tiles<G>, by: &NearIso<G>) -> Option<Residues>
    ensures found { IfSome result
        (λ r. GivesResidues G.geometry tiles.now.cells.now tiles.now.triple r.items by.now.iso) }
    ensures none { IfNone result
        ((r : List Cell) → ¬ GivesResidues G.geometry tiles.now.cells.now tiles.now.triple r by.now.iso) }
{
    let residues = sorted_image(tiles, by);
    if has_repeat(residues.as_slice()) {
        return None;
    }
    Some(residues)
}
