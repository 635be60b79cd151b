//! The placements of one level, by their spots.
ghost use Rattle.std.specs.Prelude.{◌≡◌, ◌≤◌, true, map, length, Contains, IfOk};
ghost use Rattle.heesch_grid.specs.declared.Cell.{Cell};
ghost use Rattle.heesch_grid.specs.Cells.{has};
ghost use Rattle.heesch_grid.specs.CoronaFormula.{IsAtLevel};
ghost use Rattle.heesch_grid.specs.Vectors.{IsWithin};
ghost use Rattle.heesch_place.specs.declared.spots.Spot.{Spot};
ghost use Rattle.heesch_place.specs.Found.{IsBeyond};
ghost use Rattle.heesch_place.specs.Spots.{AreBesideSome, AreForms, AreSpotsOf, AreStepsOf, IsSpot, tile_at};

use crate::forms::Forms;
use crate::lists::add;
use crate::prototile::Prototile;
use crate::spots::{Spot, SpotMarks, radius_of};
use crate::turned::first_of;
use heesch_grid::Grid;
use heesch_io::NoMemory;
use std::alloc::Global;

/// The placements that touch the shape, in the order of their cell lists.
pub(crate) fn first_level<G: Grid>(alloc: Global, forms: &Forms<G>) -> Result<Vec<Spot>, NoMemory>
    requires { (c : Cell) → has forms.now.shape c ≡ true → IsWithin 200 c }
    ensures { IfOk result (λ spots. AreSpotsOf G.geometry forms.now.forms (IsAtLevel G.geometry forms.now.shape 1)
        spots.items) }
{
    forms.beside(alloc, forms.shape())
}

/// For each form, how far behind that of its first cell the marks stand of the spots whose tiles touch it.
fn steps_of<G: Grid>(
    alloc: Global,
    prototile: &Prototile<G>,
    marks: &SpotMarks,
) -> Result<Vec<Vec<u32>>, NoMemory>
    requires forms { marks.now.forms ≡ length prototile.now.formed.forms }
    requires reach { prototile.now.reach ≤ marks.now.radius }
    ensures { IfOk result (λ all.
        AreStepsOf G.geometry prototile.now marks.now.radius (map (λ v. v.items) all.items)) }
{
    let forms = prototile.forms();
    let mut all = Vec::new(alloc);
    for form in 0..forms.count() {
        let first = first_of(forms.form(form).shape().cells());
        let steps = marks.offsets(alloc, prototile.beside(form), first, prototile.reach())?;
        add(&mut all, steps)?;
    }
    Ok(all)
}

/// Marks of the spots whose tiles touch one of the tiles. For each of these one mark is set for each spot beside it.
fn beside_some<G: Grid>(
    alloc: Global,
    prototile: &Prototile<G>,
    inner: &[Spot],
) -> Result<SpotMarks, NoMemory>
    requires spots { (s : Spot) → Contains inner.now s → IsSpot G.geometry prototile.now.formed.forms s }
    requires near { (s : Spot) → Contains inner.now s → IsWithin 50000 s.first }
    ensures beside { IfOk result (AreBesideSome G.geometry prototile.now.formed.forms
        (map (tile_at prototile.now.formed.forms) inner.now)) }
    ensures forms { IfOk result (λ _. AreForms G.geometry prototile.now.formed.shape prototile.now.formed.forms) }
{
    let reach = prototile.reach();
    let radius = radius_of(inner) + reach;
    let mut marks = SpotMarks::within(alloc, radius, prototile.forms().count())?;
    let steps = steps_of(alloc, prototile, &marks)?;
    for spot in inner {
        marks.add_at(steps[spot.form as usize].as_slice(), reach, spot.first);
    }
    Ok(marks)
}

/// The placements apart from the shape and not touching it that touch one of the tiles, in the order of their cell
/// lists.
pub(crate) fn next_level<G: Grid>(
    alloc: Global,
    prototile: &Prototile<G>,
    inner: &[Spot],
) -> Result<Vec<Spot>, NoMemory>
    requires spots { (s : Spot) → Contains inner.now s → IsSpot G.geometry prototile.now.formed.forms s }
    requires near { (s : Spot) → Contains inner.now s → IsWithin 50000 s.first }
    ensures { IfOk result (λ spots. AreSpotsOf G.geometry prototile.now.formed.forms
        (IsBeyond G.geometry prototile.now.formed.shape (map (tile_at prototile.now.formed.forms) inner.now))
        spots.items) }
{
    let spots = beside_some(alloc, prototile, inner)?.spots(alloc)?;
    prototile.barred().others(alloc, spots.as_slice())
}
