//! The variables of a corona formula.
ghost use Rattle.std.specs.Prelude.{◌≡◌, true, ◌+◌, ◌≤◌, ◌<◌, ◌^◌, ℕ};
ghost use Rattle.std.specs.Prelude.{map, length, nat_le, Contains, IfOk, OnOk, MatchOption};
ghost use Rattle.heesch_grid.specs.declared.Cell.{Cell};
ghost use Rattle.heesch_grid.specs.Cells.{has};
ghost use Rattle.heesch_grid.specs.Polyform.{IsCanonicalListOf};
ghost use Rattle.heesch_grid.specs.Placement.{IsLeastIsometry};
ghost use Rattle.heesch_grid.specs.CoronaFormula.{Variable, IsAtLevel, IsUniverse, IsNumbered};
ghost use Rattle.heesch_grid.specs.Vectors.{IsWithin};
ghost use Rattle.heesch_place.specs.declared.spots.Spot.{Spot};
ghost use Rattle.heesch_place.specs.Spots.{AreSpotsOf, IsSpot, tile_at};
ghost use Rattle.heesch_place.specs.Universes.{IsUniverseOf, covering, level_at, variable_cmp, HaveLeast, AddTiles};

use crate::forms::Forms;
use crate::level::{first_level, next_level};
use crate::lists::add;
use crate::placement::Placement;
use crate::prototile::Prototile;
use crate::spots::Spot;
use heesch_grid::{Cell, Grid};
use heesch_index::{CellSets, CellTable};
use heesch_io::{NoMemory, Seq};
use heesch_shape::Shape;
use std::alloc::Global;
use std::cmp::Ordering;
use std::marker::Model;

/// A universe has fewer variables than this.
const VARIABLES_MAX: usize = 0x8000_0000;

/// A variable: a level and a placement at it.
#[derive(Drop)]
struct Entry<G: Grid> {
    level: u32,
    place: Placement<G>,
}

impl<G: Grid> Entry<G> {
    /// How the variable compares with one of this level and these cells.
    fn compared(&self, level: u32, tile: &Shape<G>) -> Ordering
        ensures { result ≡ variable_cmp (record { level = self.now.level; tile = self.now.place.tile })
            (record { level = level; tile = tile.now }) }
    {
        self.level.cmp(&level).then(self.place.shape().cmp(tile))
    }
}

/// The variables of the levels 1 to a level: all placements that the corona formula names, each with
/// its least isometry, once at each level that it is at.
///
/// They are numbered from 1, by level and then by cell list. A table by cell says which variables'
/// tiles have it.
#[derive(Drop)]
pub struct Universe<G: Grid> {
    shape: Shape<G>,
    level: u32,
    entries: Vec<Entry<G>>,
    table: CellTable,
}

impl<G: Grid> Model for Universe<G> {
    ghost use Rattle.std.specs.Prelude.{map};
    ghost use Rattle.heesch_place.specs.Universes.{Levels, AreIndexed};

    ghost Value = { Levels };

    ghost view = { λ u. record {
      shape = u.shape;
      level = u.level;
      vars = map (λ e. record { level = e.level; tile = e.place.tile }) u.entries.items;
    } };

    ghost invariant = { λ u. AreIndexed (λ e. record { level = e.level; tile = e.place.tile })
        (λ e. e.place.by) G.geometry
        u.shape u.level u.entries.items u.table };
}

/// Adds a variable of this level for each of the spots.
fn add_entries<G: Grid>(
    entries: &mut Vec<Entry<G>>,
    forms: &Forms<G>,
    level: u32,
    spots: &[Spot],
) -> Result<(), NoMemory>
    requires spots { (s : Spot) → Contains spots.now s → IsSpot G.geometry forms.now.forms s }
    requires near { (s : Spot) → Contains spots.now s → IsWithin 100000 s.first }
    ensures { OnOk result
        (AddTiles (λ e. record { level = e.level; tile = e.place.tile }) (λ e. e.place.by) G.geometry forms.now.shape
        level (map (tile_at forms.now.forms) spots.now) entries.old.items entries.new.items) }
{
    entries.reserve(spots.len())?;
    for spot in spots {
        let place = forms.placement_at(*spot);
        add(entries, Entry { level, place })?;
    }
    Ok(())
}

/// The variables of the levels 1 to this one, made from those of level 1 and their spots.
fn further_entries<G: Grid>(
    alloc: Global,
    forms: &Forms<G>,
    level: u32,
    first: Vec<Spot>,
    inner: Vec<Entry<G>>,
) -> Result<Vec<Entry<G>>, NoMemory>
    requires level { (1 ≤ level) × (level ≤ 6) }
    requires near { (c : Cell) → has forms.now.shape c ≡ true → IsWithin 200 c }
    requires first { AreSpotsOf G.geometry forms.now.forms (IsAtLevel G.geometry forms.now.shape 1) first.items }
    requires inner { IsUniverse G.geometry forms.now.shape 1
        (map (λ e. record { level = e.level; tile = e.place.tile }) inner.items) }
    requires least { HaveLeast (λ e. record { level = e.level; tile = e.place.tile }) (λ e. e.place.by) G.geometry
        forms.now.shape inner.items }
    ensures universe { IfOk result (λ all. IsUniverse G.geometry forms.now.shape level
        (map (λ e. record { level = e.level; tile = e.place.tile }) all.items)) }
    ensures least { IfOk result (λ all.
        HaveLeast (λ e. record { level = e.level; tile = e.place.tile }) (λ e. e.place.by) G.geometry
        forms.now.shape all.items) }
{
    // Reading the shape tells the proof that these are its forms.
    let _shape = forms.shape();
    let prototile = Prototile::of(alloc, forms)?;
    let mut spots = first;
    let mut entries = inner;
    for k in 1..level {
        spots = next_level(alloc, &prototile, spots.as_slice())?;
        add_entries(&mut entries, forms, k + 1, spots.as_slice())?;
    }
    Ok(entries)
}

/// The variables of the levels 1 to this one. Level 1 alone needs no lists of the spots around each form.
fn entries_of<G: Grid>(
    alloc: Global,
    forms: &Forms<G>,
    level: u32,
) -> Result<Vec<Entry<G>>, NoMemory>
    requires level { (1 ≤ level) × (level ≤ 6) }
    requires near { (c : Cell) → has forms.now.shape c ≡ true → IsWithin 200 c }
    ensures universe { IfOk result (λ all. IsUniverse G.geometry forms.now.shape level
        (map (λ e. record { level = e.level; tile = e.place.tile }) all.items)) }
    ensures least { IfOk result (λ all.
        HaveLeast (λ e. record { level = e.level; tile = e.place.tile }) (λ e. e.place.by) G.geometry
        forms.now.shape all.items) }
{
    // Reading the shape tells the proof that these are its forms.
    let _shape = forms.shape();
    let spots = first_level(alloc, forms)?;
    let mut entries = Vec::new(alloc);
    add_entries(&mut entries, forms, 1, spots.as_slice())?;
    if level == 1 {
        return Ok(entries);
    }
    further_entries(alloc, forms, level, spots, entries)
}

/// The table of the variables' tiles.
fn table_of<G: Grid>(alloc: Global, entries: &[Entry<G>]) -> Result<CellTable, NoMemory>
    ensures { IfOk result (λ table. table ≡ map (λ e. e.place.tile) entries.now) }
{
    let mut sets = CellSets::new(alloc);
    for entry in entries {
        sets.push(entry.place.shape().cells())?;
    }
    CellTable::of(alloc, sets)
}

/// Whether the variable of a number has a level of at most `up_to`.
fn is_up_to<G: Grid>(entries: &[Entry<G>], number: u32, up_to: u32) -> bool
    ensures { result ≡ nat_le (level_at (map (λ e. e.level) entries.now) number) up_to }
{
    let place = number.saturating_sub(1) as usize;
    if place >= entries.len() {
        return true;
    }
    entries[place].level <= up_to
}

impl<G: Grid> Universe<G> {
    /// The universe of a canonical shape, at a level from 1 to 6. A universe of 2^31 variables or more
    /// counts as want of memory.
    ///
    /// For each variable below the last level one mark is set for each placement that touches its tile; so
    /// the cost grows with the number of variables, times that of the placements around one tile.
    pub fn of(alloc: Global, shape: &Shape<G>, level: u32) -> Result<Universe<G>, NoMemory>
        requires level { (1 ≤ level) × (level ≤ 6) }
        requires canonical { IsCanonicalListOf G.geometry shape.now shape.now }
        ensures universe { IfOk result (λ u. IsUniverseOf G.geometry u) }
        ensures shape { IfOk result (λ u. u.shape ≡ shape.now) }
        ensures level { IfOk result (λ u. u.level ≡ level) }
        ensures few { IfOk result (λ u. length u.vars < 2 ^ 31) }
    {
        let forms = Forms::of(alloc, shape.canonical())?;
        let entries = entries_of(alloc, &forms, level)?;
        if entries.len() >= VARIABLES_MAX {
            return Err(NoMemory);
        }
        let table = table_of(alloc, entries.as_slice())?;
        Ok(Universe {
            shape: forms.into_shape(),
            level,
            entries,
            table,
        })
    }

    /// How many variables there are. It takes no memory and a constant time.
    pub fn count(&self) -> u32
        ensures count { result ≡ length self.now.vars }
        ensures universe { IsUniverseOf G.geometry self.now }
    {
        self.entries.len() as u32
    }

    /// The level up to which it has variables, from 1 to 6. It takes no memory and a constant time.
    pub fn level(&self) -> u32
        ensures level { result ≡ self.now.level }
        ensures range { (1 ≤ self.now.level) × (self.now.level ≤ 6) }
    {
        self.level
    }

    /// The level of a variable, by its number from 1 to the count. It takes no memory and a constant
    /// time.
    pub fn level_of(&self, var: u32) -> u32
        requires { (1 ≤ var) × (var ≤ length self.now.vars) }
        ensures { (x : Variable) → IsNumbered self.now.vars var x → result ≡ x.level }
    {
        self.entries[var as usize - 1].level
    }

    /// The placement of a variable, by its number from 1 to the count. It takes no memory and a
    /// constant time.
    pub fn placement_of(&self, var: u32) -> &Placement<G>
        requires { (1 ≤ var) × (var ≤ length self.now.vars) }
        ensures tile { (x : Variable) → IsNumbered self.now.vars var x → result.now.tile ≡ x.tile }
        ensures least { IsLeastIsometry G.geometry self.now.shape result.now.tile result.now.by }
    {
        &self.entries[var as usize - 1].place
    }

    /// The number of the variable of a level and a placement, where there is one. A binary search over
    /// all variables; it takes no memory.
    pub fn number_of(&self, level: u32, place: &Placement<G>) -> Option<u32>
        ensures { MatchOption result
            ((n : ℕ) (x : Variable) → IsNumbered self.now.vars n x → ¬ ((x.level ≡ level) × (x.tile ≡ place.now.tile)))
            (λ n. IsNumbered self.now.vars n (record { level = level; tile = place.now.tile })) }
    {
        let tile = place.shape();
        let found = self
            .entries
            .binary_search_by(|entry| entry.compared(level, tile));
        match found {
            Ok(at) => Some(at as u32 + 1),
            Err(_) => None,
        }
    }

    /// The numbers, rising, of the variables of level at most `up_to` whose tile has the cell. One
    /// look-up, and a binary search over what it gives; it takes no memory.
    pub fn covered_by(&self, c: Cell, up_to: u32) -> &[u32]
        ensures { result.now ≡ covering self.now.vars up_to c }
    {
        let numbers = self.table.covering(c);
        if self.level <= up_to {
            return numbers;
        }
        let entries = self.entries.as_slice();
        let end = numbers.partition_point(|number| is_up_to(entries, *number, up_to));
        &numbers[..end]
    }

    /// The same numbers as a list of their own.
    pub fn covering(&self, alloc: Global, c: Cell, up_to: u32) -> Result<Seq<u32>, NoMemory>
        ensures { IfOk result (λ numbers. numbers ≡ covering self.now.vars up_to c) }
    {
        let numbers = Vec::from_slice(alloc, self.covered_by(c, up_to))?;
        Ok(Seq::from_vec(numbers))
    }
}
