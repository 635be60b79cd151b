//! The shape whose placements are listed, and what is made of it once for the levels after the first.
ghost use Rattle.std.specs.Prelude.{◌≡◌, ◌<◌, ◌≤◌, ℕ, true, map, length, Contains, IfOk, slice_index_or, []};
ghost use Rattle.heesch_grid.specs.declared.Cell.{Cell};
ghost use Rattle.heesch_grid.specs.Cells.{has};
ghost use Rattle.heesch_grid.specs.Listing.{ListsExactly};
ghost use Rattle.heesch_grid.specs.Vectors.{IsWithin, minus};
ghost use Rattle.heesch_place.specs.declared.spots.Spot.{Spot};
ghost use Rattle.heesch_place.specs.Spots.{AreBarred, AreBeside, AreForms, AreInReach, AreWithinEach, IsBeside};
ghost use Rattle.heesch_place.specs.Spots.{head_of, spot_before};

use crate::around::cells_touching;
use crate::forms::Forms;
use crate::lists::add;
use crate::spots::{Spot, SpotMarks, radius_of, widened};
use crate::turned::first_of;
use heesch_grid::Grid;
use heesch_io::NoMemory;
use std::alloc::Global;
use std::marker::Model;

/// The shape whose placements are listed: its forms, the spots whose tiles touch each of them, how far from its first
/// cell such a tile begins, and marks of the spots whose tiles meet or touch the shape.
#[derive(Drop)]
pub(crate) struct Prototile<'a, G: Grid> {
    forms: &'a Forms<G>,
    beside: Vec<Vec<Spot>>,
    reach: u32,
    barred: SpotMarks,
}

impl<'a, G: Grid> Model for Prototile<'a, G> {
    ghost use Rattle.std.specs.Prelude.{map};
    ghost use Rattle.heesch_place.specs.Spots.{IsPrepared, Prepared};

    ghost Value = { Prepared };

    ghost view = { λ p. record { formed = p.forms.now; reach = p.reach } };

    ghost invariant = { λ p. IsPrepared G.geometry p.forms.now (map (λ v. v.items) p.beside.items) p.reach p.barred };
}

/// Marks of the spots whose tiles meet or touch the shape.
fn barred_by<G: Grid>(alloc: Global, forms: &Forms<G>) -> Result<SpotMarks, NoMemory>
    requires { (c : Cell) → has forms.now.shape c ≡ true → IsWithin 200 c }
    ensures { IfOk result (AreBarred G.geometry forms.now) }
{
    let shape = forms.shape();
    let mut cells = cells_touching(alloc, shape)?;
    cells.extend_from_slice(shape.cells())?;
    forms.over(alloc, cells.as_slice())
}

/// The greater of the two.
fn greater(m: u32, n: u32) -> u32
    ensures first { m ≤ result }
    ensures second { n ≤ result }
    ensures least { (k : ℕ) → m ≤ k → n ≤ k → result ≤ k }
{
    m.max(n)
}

/// For each form the spots whose tiles touch it.
fn beside_each<G: Grid>(alloc: Global, forms: &Forms<G>) -> Result<Vec<Vec<Spot>>, NoMemory>
    ensures listed { IfOk result (λ all. AreBeside G.geometry forms.now.forms (map (λ v. v.items) all.items)) }
    ensures near { IfOk result (λ all. AreWithinEach 20000 (map (λ v. v.items) all.items)) }
{
    let mut all = Vec::new(alloc);
    for form in 0..forms.count() {
        let spots = forms.beside(alloc, forms.form(form).shape())?;
        add(&mut all, spots)?;
    }
    Ok(all)
}

/// How far from the first cell of its form a spot of these begins, or more.
fn reach_of<G: Grid>(forms: &Forms<G>, beside: &[Vec<Spot>]) -> u32
    requires long { length beside.now ≡ length forms.now.forms }
    requires near { AreWithinEach 20000 (map (λ v. v.items) beside.now) }
    ensures reach { AreInReach forms.now.forms (map (λ v. v.items) beside.now) result }
    ensures small { result ≤ 30000 }
{
    let mut reach = 0;
    for form in 0..forms.count() {
        let first = first_of(forms.form(form).shape().cells());
        let spots = beside[form as usize].as_slice();
        reach = greater(reach, radius_of(spots) + widened(0, first));
    }
    reach
}

impl<'a, G: Grid> Prototile<'a, G> {
    /// What is made of the forms of a shape near 0.
    pub(crate) fn of(alloc: Global, forms: &'a Forms<G>) -> Result<Prototile<'a, G>, NoMemory>
        requires { (c : Cell) → has forms.now.shape c ≡ true → IsWithin 200 c }
        ensures { IfOk result (λ prototile. prototile.formed ≡ forms.now) }
    {
        let beside = beside_each(alloc, forms)?;
        let reach = reach_of(forms, beside.as_slice());
        let barred = barred_by(alloc, forms)?;
        Ok(Prototile {
            forms,
            beside,
            reach,
            barred,
        })
    }

    /// Its forms.
    pub(crate) fn forms(&self) -> &Forms<G>
        ensures is { result.now ≡ self.now.formed }
        ensures forms { AreForms G.geometry self.now.formed.shape self.now.formed.forms }
    {
        let _shape = self.forms.shape();
        self.forms
    }

    /// The spots whose tiles touch the form of this place.
    pub(crate) fn beside(&self, form: u32) -> &[Spot]
        requires { form < length self.now.formed.forms }
        ensures listed { ListsExactly spot_before
            (IsBeside G.geometry self.now.formed.forms (slice_index_or self.now.formed.forms form [])) result.now }
        ensures reach { (s : Spot) → Contains result.now s
            → IsWithin self.now.reach (minus s.first (head_of (slice_index_or self.now.formed.forms form []))) }
    {
        self.beside[form as usize].as_slice()
    }

    /// How far from the first cell of a form a tile begins that touches it, or more.
    pub(crate) fn reach(&self) -> u32
        ensures reach { result ≡ self.now.reach }
        ensures small { result ≤ 30000 }
    {
        self.reach
    }

    /// Marks of the spots whose tiles meet or touch the shape.
    pub(crate) fn barred(&self) -> &SpotMarks
        ensures { AreBarred G.geometry self.now.formed result.now }
    {
        &self.barred
    }
}
