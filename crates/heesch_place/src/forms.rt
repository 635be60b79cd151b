//! The forms of a shape: its placements that begin near 0, of which each placement is one, moved by whole units.
ghost use Rattle.std.specs.Prelude.{◌≡◌, ◌<◌, ◌≤◌, ℕ, true, map, filter, length, List, Contains};
ghost use Rattle.std.specs.Prelude.{IfOk, OnOk, All, slice_index_or, []};
ghost use Rattle.heesch_grid.specs.declared.Cell.{Cell};
ghost use Rattle.heesch_grid.specs.Cells.{cell, has};
ghost use Rattle.heesch_grid.specs.Listing.{ListsExactly};
ghost use Rattle.heesch_grid.specs.Placement.{IsLeastIsometry};
ghost use Rattle.heesch_grid.specs.Vectors.{IsWithin};
ghost use Rattle.heesch_place.specs.declared.spots.Spot.{Spot};
ghost use Rattle.heesch_place.specs.Found.{Adds};
ghost use Rattle.heesch_place.specs.Spots.{AreCovers, AreForms, IsBeside, IsCover, IsOver, IsSpot, is_whole};
ghost use Rattle.heesch_place.specs.Spots.{spot_before, step_to, tile_at};

use crate::around::cells_touching;
use crate::images::Images;
use crate::lists::add;
use crate::placement::Placement;
use crate::spots::{Spot, SpotMarks, radius_of, widened};
use crate::turned::first_of;
use heesch_grid::moves::{difference, units_of};
use heesch_grid::{Cell, Grid};
use heesch_io::NoMemory;
use heesch_shape::Shape;
use std::alloc::Global;
use std::marker::Model;

/// A shape and its forms, each with its least isometry, and the spots whose tiles have the cell (0, 0).
#[derive(Drop)]
pub(crate) struct Forms<G: Grid> {
    shape: Shape<G>,
    forms: Vec<Placement<G>>,
    covers: Vec<Spot>,
}

impl<G: Grid> Model for Forms<G> {
    ghost use Rattle.std.specs.Prelude.{map};
    ghost use Rattle.heesch_place.specs.Spots.{Formed, AreFormsOf};

    ghost Value = { Formed };

    ghost view = { λ f. record { shape = f.shape; forms = map (λ p. p.tile) f.forms.items } };

    ghost invariant = { λ f. AreFormsOf G.geometry f.shape f.forms.items f.covers.items };
}

/// The tiles, each with its least isometry.
fn placements_of<G: Grid>(
    alloc: Global,
    images: &Images<G>,
    tiles: Vec<Shape<G>>,
) -> Result<Vec<Placement<G>>, NoMemory>
    requires { AreForms G.geometry images.now tiles.items }
    ensures tiles { IfOk result (λ all. map (λ p. p.tile) all.items ≡ tiles.items) }
    ensures least { IfOk result (λ all. All (λ p. IsLeastIsometry G.geometry images.now p.tile p.by) all.items) }
{
    let mut all = Vec::new(alloc);
    for tile in tiles {
        add(&mut all, Placement::onto(images, tile))?;
    }
    Ok(all)
}

/// Adds the spots of the form, which has these cells, whose tiles have the cell (0, 0).
fn add_covers(covers: &mut Vec<Spot>, form: u32, cells: &[Cell]) -> Result<(), NoMemory>
    requires some { 1 ≤ length cells.now }
    requires near { (c : Cell) → has cells.now c ≡ true → IsWithin 5000 c }
    ensures { OnOk result (Adds (IsCover form cells.now) covers.old.items covers.new.items) }
{
    let first = first_of(cells);
    for c in cells {
        let spot = Spot {
            form,
            first: difference(*c, first),
        };
        add(covers, spot)?;
    }
    Ok(())
}

/// The spots of all forms whose tiles have the cell (0, 0).
fn covers_of<G: Grid>(alloc: Global, forms: &[Placement<G>]) -> Result<Vec<Spot>, NoMemory>
    requires few { length forms.now ≤ 12 }
    requires near { All (λ p. (c : Cell) → has p.tile c ≡ true → IsWithin 5000 c) forms.now }
    ensures { IfOk result (λ covers. AreCovers (map (λ p. p.tile) forms.now) covers.items) }
{
    let mut covers = Vec::new(alloc);
    for (form, place) in forms.iter().enumerate() {
        add_covers(&mut covers, form as u32, place.shape().cells())?;
    }
    Ok(covers)
}

/// How far from 0 the cells lie.
fn radius(cells: &[Cell]) -> u32
    ensures within { (c : Cell) → has cells.now c ≡ true → IsWithin result c }
    ensures bound { (n : ℕ) → ((c : Cell) → has cells.now c ≡ true → IsWithin n c) → result ≤ n }
{
    let mut radius = 0;
    for c in cells {
        radius = widened(radius, *c);
    }
    radius
}

impl<G: Grid> Forms<G> {
    /// The forms of a shape near 0.
    pub(crate) fn of(alloc: Global, shape: Shape<G>) -> Result<Forms<G>, NoMemory>
        requires { (c : Cell) → has shape c ≡ true → IsWithin 200 c }
        ensures { IfOk result (λ forms. forms.shape ≡ shape) }
    {
        let images = Images::of(alloc, shape)?;
        let tiles = images.forms(alloc)?;
        let forms = placements_of(alloc, &images, tiles)?;
        let covers = covers_of(alloc, forms.as_slice())?;
        Ok(Forms {
            shape: images.into_shape(),
            forms,
            covers,
        })
    }

    /// The shape.
    pub(crate) fn shape(&self) -> &Shape<G>
        ensures shape { result.now ≡ self.now.shape }
        ensures forms { AreForms G.geometry self.now.shape self.now.forms }
    {
        &self.shape
    }

    /// The shape, alone.
    pub(crate) fn into_shape(self) -> Shape<G>
        ensures { result ≡ self.shape }
    {
        self.shape
    }

    /// How many forms there are.
    pub(crate) fn count(&self) -> u32
        ensures count { result ≡ length self.now.forms }
        ensures forms { AreForms G.geometry self.now.shape self.now.forms }
    {
        self.forms.len() as u32
    }

    /// The form of this place among them.
    pub(crate) fn form(&self, form: u32) -> &Placement<G>
        requires { form < length self.now.forms }
        ensures tile { result.now.tile ≡ slice_index_or self.now.forms form [] }
        ensures least { IsLeastIsometry G.geometry self.now.shape result.now.tile result.now.by }
        ensures near { IsWithin 10000 (cell result.now.by.da result.now.by.db) }
        ensures within { (c : Cell) → has result.now.tile c ≡ true → IsWithin 5000 c }
    {
        &self.forms[form as usize]
    }

    /// How far the spot's tile lies from its form.
    pub(crate) fn step_to(&self, spot: Spot) -> Cell
        requires form { spot.form < length self.now.forms }
        requires first { IsWithin 100000 spot.first }
        ensures is { result ≡ step_to self.now.forms spot }
        ensures near { IsWithin 105000 result }
    {
        difference(first_of(self.form(spot.form).shape().cells()), spot.first)
    }

    /// Whether the spot's tile lies whole units away from its form.
    fn is_whole(&self, spot: Spot) -> bool
        requires form { spot.form < length self.now.forms }
        requires first { IsWithin 100000 spot.first }
        ensures { result ≡ is_whole G.geometry (step_to self.now.forms spot) }
    {
        let Some(_) = units_of(self.step_to(spot), G::UNIT) else {
            return false;
        };
        true
    }

    /// The spots whose tiles lie whole units away from their forms, in their order.
    fn whole(&self, alloc: Global, spots: &[Spot]) -> Result<Vec<Spot>, NoMemory>
        requires forms { (s : Spot) → Contains spots.now s → s.form < length self.now.forms }
        requires firsts { (s : Spot) → Contains spots.now s → IsWithin 100000 s.first }
        ensures { IfOk result (λ kept. kept.items
            ≡ filter (λ s. is_whole G.geometry (step_to self.now.forms s)) spots.now) }
    {
        let mut kept = Vec::new(alloc);
        for spot in spots {
            if self.is_whole(*spot) {
                add(&mut kept, *spot)?;
            }
        }
        Ok(kept)
    }

    /// The spot's tile, with its least isometry.
    pub(crate) fn placement_at(&self, spot: Spot) -> Placement<G>
        requires is_spot { IsSpot G.geometry self.now.forms spot }
        requires first { IsWithin 100000 spot.first }
        ensures tile { result.tile ≡ tile_at self.now.forms spot }
        ensures least { IsLeastIsometry G.geometry self.now.shape result.tile result.by }
    {
        let Some(units) = units_of(self.step_to(spot), G::UNIT) else {
            unreachable!()
        };
        self.form(spot.form).moved(units)
    }

    /// Marks of the spots whose tiles have one of the cells, whether or not they lie whole units away from their
    /// forms. For each cell, and each form, each cell of the form is laid on it once.
    pub(crate) fn over(&self, alloc: Global, cells: &[Cell]) -> Result<SpotMarks, NoMemory>
        requires { (c : Cell) → has cells.now c ≡ true → IsWithin 6000 c }
        ensures { IfOk result (IsOver self.now.forms cells.now) }
    {
        let covers = self.covers.as_slice();
        let reach = radius_of(covers);
        let mut marks = SpotMarks::within(alloc, radius(cells) + reach, self.count())?;
        let zero = Cell { a: 0, b: 0 };
        let offsets = marks.offsets(alloc, covers, zero, reach)?;
        for c in cells {
            marks.add_at(offsets.as_slice(), reach, *c);
        }
        Ok(marks)
    }

    /// The spots whose tiles touch the tile, in order.
    pub(crate) fn beside(&self, alloc: Global, tile: &Shape<G>) -> Result<Vec<Spot>, NoMemory>
        requires { (c : Cell) → has tile.now c ≡ true → IsWithin 5000 c }
        ensures listed { IfOk result (λ spots.
            ListsExactly spot_before (IsBeside G.geometry self.now.forms tile.now) spots.items) }
        ensures near { IfOk result (λ spots. (s : Spot) → Contains spots.items s → IsWithin 20000 s.first) }
    {
        let targets = cells_touching(alloc, tile)?;
        let spots = self.over(alloc, targets.as_slice())?.spots(alloc)?;
        let whole = self.whole(alloc, spots.as_slice())?;
        self.over(alloc, tile.cells())?
            .others(alloc, whole.as_slice())
    }
}
