//! The variables of the torus formula.
ghost use Rattle.std.specs.Prelude.{◌≡◌, ◌<◌, ◌≤◌, ◌+◌, ◌*◌, true, length, IfOk, OnOk};
ghost use Rattle.heesch_grid.specs.declared.Cell.{Cell};
ghost use Rattle.heesch_grid.specs.Cells.{has};
ghost use Rattle.heesch_grid.specs.Lattice.{IsTriple};
ghost use Rattle.heesch_grid.specs.Polyform.{IsPolyform};
ghost use Rattle.heesch_grid.specs.Vectors.{IsWithin};
ghost use Rattle.heesch_torus.specs.Variables.{AreVariables};
ghost use Rattle.heesch_torus.specs.Trying.{tried, HasTried};

use crate::found::{Found, Variable};
use crate::near_iso::NearIso;
use crate::residues::residues_of;
use crate::tiles::Tiles;
use heesch_grid::{Cell, Grid, Iso};
use heesch_io::NoMemory;
use heesch_lattice::Triple;
use std::alloc::Global;
use std::marker::PhantomData;

/// How many translations lie within the triple.
fn translation_count(triple: Triple) -> u32
    ensures { result ≡ triple.p * triple.q }
{
    triple.p * triple.q
}

/// The k-th isometry of a turn within the triple, by db and then by da.
fn isometry_at<G: Grid>(triple: Triple, turn: u32, k: u32) -> NearIso<G>
    requires turn { turn < G.geometry.turns }
    requires number { k ≤ 1000 }
    ensures { result.iso ≡ tried triple turn k }
{
    NearIso {
        iso: Iso {
            turn,
            da: (k % triple.p) as i32,
            db: (k / triple.p) as i32,
        },
        grid: PhantomData,
    }
}

/// Adds the residue sets of the isometries of a turn.
fn try_turn<G: Grid>(found: &mut Found, tiles: &Tiles<G>, turn: u32) -> Result<(), NoMemory>
    requires turn { turn < G.geometry.turns }
    requires before { HasTried G.geometry tiles.now.cells.now tiles.now.triple turn 0 found.old }
    ensures { OnOk result (HasTried G.geometry tiles.now.cells.now tiles.now.triple (turn + 1) 0 found.new) }
{
    let triple = tiles.triple;
    for k in 0..translation_count(triple) {
        let by = isometry_at::<G>(triple, turn, k);
        if let Some(residues) = residues_of(tiles, &by) {
            found.add(residues, by.iso)?;
        }
    }
    Ok(())
}

/// The residue sets of the tiles, each with its first isometry.
fn variables_of_tiles<G: Grid>(alloc: Global, tiles: &Tiles<G>) -> Result<Vec<Variable>, NoMemory>
    ensures { IfOk result (λ v. AreVariables G.geometry tiles.now.cells.now tiles.now.triple v.items) }
{
    let mut found = Found::new(alloc);
    for turn in 0..G::TURNS {
        try_turn(&mut found, tiles, turn)?;
    }
    found.into_variables(alloc)
}

/// The variables of the torus formula in number order: the residue sets, each with its isometry, the first within the
/// triple that gives it.
///
/// Condition: the cells are those of a polyform and lie within 100,000 of 0, and the triple has at most 384
/// translations. `NoMemory` says nothing more. Cost: for each isometry within the triple a reduction for each cell, and
/// a look-up among the sets found so far.
pub fn variables_of<G: Grid>(
    alloc: Global,
    cells: &[Cell],
    triple: Triple,
) -> Result<Vec<Variable>, NoMemory>
    requires triple { IsTriple triple }
    requires small { triple.p * triple.q ≤ 384 }
    requires form { IsPolyform G.geometry cells.now }
    requires few { length cells.now ≤ 32 }
    requires near { (c : Cell) → has cells.now c ≡ true → IsWithin 100000 c }
    ensures { IfOk result (λ v. AreVariables G.geometry cells.now triple v.items) }
{
    let tiles = Tiles::<G> {
        cells,
        triple,
        grid: PhantomData,
    };
    variables_of_tiles(alloc, &tiles)
}
