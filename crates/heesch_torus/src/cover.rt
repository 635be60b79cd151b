//! The search for a cover of a triple that keeps no log.
ghost use Rattle.std.specs.Prelude.{◌≡◌, ◌↔◌, ◌<◌, ◌≤◌, ◌+◌, ℕ, true, length, IfOk, OnOk};
ghost use Rattle.heesch_grid.specs.declared.Cell.{Cell};
ghost use Rattle.heesch_grid.specs.Cells.{has};
ghost use Rattle.heesch_grid.specs.Polyform.{IsPolyform};
ghost use Rattle.heesch_grid.specs.Vectors.{IsWithin};
ghost use Rattle.heesch_tiling.specs.Counting.{IsInRange};
ghost use Rattle.heesch_torus.specs.Answer.{IsChosenCover};
ghost use Rattle.heesch_torus.specs.Covers.{IsCoverAnswer, HasMaskAmong, HasExactMasks, AreValuesOf};
ghost use Rattle.heesch_torus.specs.Covers.{HasPartialCovers, IsFillingAt, IsTorusFilling};
ghost use Rattle.heesch_torus.specs.Domain.{HasDomain};
ghost use Rattle.heesch_torus.specs.Masks.{HasMasksFrom};
ghost use Rattle.heesch_torus.specs.Variables.{AreVariables};

use crate::filling::{Filling, fill_beside};
use crate::found::Variable;
use crate::masks::{add_masks, mask_of};
use crate::near_iso::NearIso;
use crate::places::chosen_tiling;
use crate::points::{all_points, points_of};
use crate::steps::steps_of;
use crate::torus::Torus;
use crate::variables::variables_of;
use heesch_cert::Tiling;
use heesch_grid::{Grid, Iso};
use heesch_io::{NoMemory, Seq};
use heesch_lattice::Triple;
use heesch_shape::Shape;
use std::alloc::Global;
use std::marker::PhantomData;

/// Whether there is a cover for a triple, as far as it was searched.
#[derive(Drop)]
pub enum CoverAnswer {
    /// A cover.
    Tiles { tiling: Tiling },
    /// There is none.
    None,
    /// It was not searched whole: the torus has more than 64 cells, or the nodes were used up.
    Open,
}

/// Searches for masks that, with the tile of a turn at (0, 0), have each point once.
fn fill_at<G: Grid>(
    alloc: Global,
    torus: &Torus<G>,
    turn: u32,
    masks: &[u64],
    nodes: &mut u32,
) -> Result<Filling, NoMemory>
    requires turn { turn < G.geometry.turns }
    requires masks { HasMasksFrom G.geometry torus.now.cells.now torus.now.triple turn masks.now }
    ensures answer { IfOk result
        (IsFillingAt G.geometry torus.now.cells.now torus.now.triple turn masks.now torus.now.full nodes.old) }
    ensures spent { OnOk result ((count : ℕ)
        × HasPartialCovers G.geometry torus.now.cells.now torus.now.triple torus.now.full turn count
        × (nodes.old ≤ nodes.new + count)) }
{
    let unmoved = NearIso::<G> {
        iso: Iso { turn, da: 0, db: 0 },
        grid: PhantomData,
    };
    let Some(first) = mask_of(torus, &unmoved) else {
        return Ok(Filling::None);
    };
    let filling = fill_beside(alloc, masks, first, torus.full, nodes)?;
    match filling {
        Filling::Filled { mut masks } => {
            masks.push(first)?;
            Ok(Filling::Filled { masks })
        }
        Filling::None => Ok(Filling::None),
        Filling::Open => Ok(Filling::Open),
    }
}

/// Searches for masks of tiles that have each point once. A tile of the least turn stands at (0, 0).
fn fill_torus<G: Grid>(alloc: Global, torus: &Torus<G>, nodes: u32) -> Result<Filling, NoMemory>
    requires { IsPolyform G.geometry torus.now.cells.now }
    ensures { IfOk result (IsTorusFilling G.geometry torus.now.cells.now torus.now.triple torus.now.full nodes) }
{
    let mut masks = Vec::new(alloc);
    let mut left = nodes;
    let steps = steps_of(torus);
    for done in 0..G::TURNS {
        let turn = G::TURNS - 1 - done;
        add_masks(&mut masks, torus, &steps, turn)?;
        let filling = fill_at(alloc, torus, turn, &masks, &mut left)?;
        match filling {
            Filling::Filled { masks } => return Ok(Filling::Filled { masks }),
            Filling::Open => return Ok(Filling::Open),
            Filling::None => {}
        }
    }
    Ok(Filling::None)
}

/// Whether the mask of a variable is among these.
fn is_among<G: Grid>(torus: &Torus<G>, masks: &[u64], by: Iso) -> bool
    requires { IsInRange G.geometry by }
    ensures { (result ≡ true) ↔ HasMaskAmong G.geometry torus.now.cells.now torus.now.triple masks.now by }
{
    let near = NearIso::<G> {
        iso: by,
        grid: PhantomData,
    };
    let Some(mask) = mask_of(torus, &near) else {
        return false;
    };
    masks.contains(&mask)
}

/// Which of the variables have their mask among these.
fn values_of<G: Grid>(
    alloc: Global,
    torus: &Torus<G>,
    masks: &[u64],
    variables: &[Variable],
) -> Result<Seq<bool>, NoMemory>
    requires { AreVariables G.geometry torus.now.cells.now torus.now.triple variables.now }
    ensures { IfOk result
        (AreValuesOf G.geometry torus.now.cells.now torus.now.triple masks.now variables.now) }
{
    let mut values = Seq::new(alloc);
    for variable in variables {
        values.push(is_among(torus, masks, variable.by))?;
    }
    Ok(values)
}

/// The cover by the tiles whose masks these are.
fn cover_of<G: Grid>(alloc: Global, torus: &Torus<G>, masks: &[u64]) -> Result<Tiling, NoMemory>
    requires form { IsPolyform G.geometry torus.now.cells.now }
    requires exact { HasExactMasks G.geometry torus.now.cells.now torus.now.triple masks.now }
    ensures { IfOk result (IsChosenCover G.geometry torus.now.cells.now torus.now.triple) }
{
    let triple = torus.triple;
    let variables = variables_of::<G>(alloc, torus.cells, triple)?;
    let values = values_of(alloc, torus, masks, variables.as_slice())?;
    chosen_tiling(alloc, triple, variables.as_slice(), values.as_slice())
}

/// Searches for a cover of a triple by masks, for so many nodes, and keeps no log.
///
/// A mask has a bit for each of the torus's cells, and a tile one mask: the search is for masks that
/// have each bit once. A tile of the least turn is fixed at (0, 0), where a translation brings it.
/// Tiles has a cover whose places are chosen as those of `search`. None comes only where the triple
/// has no cover. Open comes only where the torus has more than 64 cells, or where the nodes were used
/// up: they were fewer than the partial covers. Those are, for each turn with its tile at (0, 0), the
/// choices of tiles of this turn and later ones that have no cell twice with it.
/// Condition: the cells lie within 100,000 of 0, and the triple is one of a domain of 1 to 12 tiles.
///
/// Cost: two reductions for each cell of the torus and one for each cell of each turn; a look-up for
/// each cell of each further translation; for each turn a sort of the tiles of its turn and later ones
/// that are apart from the fixed tile, and the nodes of the exact cover, each a pass over its
/// candidates. Where there is a cover, once more the variables of the torus formula.
pub fn find_cover<G: Grid>(
    alloc: Global,
    shape: &Shape<G>,
    triple: Triple,
    nodes: u32,
) -> Result<CoverAnswer, NoMemory>
    requires near { (c : Cell) → has shape.now c ≡ true → IsWithin 100000 c }
    requires domain { HasDomain G.geometry (length shape.now) triple }
    ensures { IfOk result (IsCoverAnswer G.geometry shape.now triple nodes) }
{
    let cells = shape.cells();
    let points = points_of::<G>(alloc, triple)?;
    if points.count > 64 {
        return Ok(CoverAnswer::Open);
    }
    let full = all_points(points.count);
    let torus = Torus::<G> {
        cells,
        triple,
        numbers: &points.numbers,
        full,
        grid: PhantomData,
    };
    let filling = fill_torus(alloc, &torus, nodes)?;
    match filling {
        Filling::Filled { masks } => {
            let tiling = cover_of(alloc, &torus, masks.as_slice())?;
            Ok(CoverAnswer::Tiles { tiling })
        }
        Filling::None => Ok(CoverAnswer::None),
        Filling::Open => Ok(CoverAnswer::Open),
    }
}
