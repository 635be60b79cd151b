//! The cover table of a universe.
ghost use Rattle.std.specs.Prelude.{◌≡◌, ◌<◌, ◌^◌, IfOk, length};
ghost use Rattle.heesch_encode.specs.Plans.{IsPlan};
ghost use Rattle.heesch_grid.specs.Polyform.{IsCanonicalListOf};
ghost use Rattle.heesch_place.specs.Universes.{IsUniverseOf};

use crate::contacts::Contacts;
use crate::draft::Draft;
use crate::frame::Frame;
use heesch_cover::{CoverTable, NumberLists};
use heesch_encode::{Plan, rings_of};
use heesch_grid::{Cell, Grid};
use heesch_io::NoMemory;
use heesch_place::Universe;
use heesch_shape::Shape;
use std::alloc::Global;

/// Lists the places of cells, in place of what the list had.
fn write_places(places: &mut Vec<u32>, frame: Frame, cells: &[Cell]) -> Result<(), NoMemory> {
    places.clear();
    for c in cells {
        places.push(frame.place(*c))?;
    }
    Ok(())
}

/// The tiles of the variables in number order, each by the places of its cells.
fn tiles_of<G: Grid>(
    alloc: Global,
    universe: &Universe<G>,
    frame: Frame,
) -> Result<NumberLists, NoMemory>
    ensures { IfOk result (λ tiles. tiles.count ≡ length universe.now.vars) }
{
    let mut tiles = NumberLists::new(alloc, frame.places);
    let mut places = Vec::new(alloc);
    for before in 0..universe.count() {
        let tile = universe.placement_of(before + 1).shape();
        write_places(&mut places, frame, tile.cells())?;
        tiles.push(&places)?;
    }
    Ok(tiles)
}

/// The table of a plan, whose cells have their places in the frame as numbers.
fn filled<G: Grid>(alloc: Global, plan: &Plan<G>, frame: Frame) -> Result<CoverTable, NoMemory>
    requires { IsPlan G.geometry plan.now.universe.now plan.now.shape.now plan.now.level plan.now.rings.now }
    ensures { IfOk result (λ table. table.vars ≡ length plan.now.universe.now.vars) }
{
    let tiles = tiles_of(alloc, plan.universe, frame)?;
    let table = CoverTable::of(alloc, tiles)?;
    let contacts = Contacts::of(alloc, plan, frame)?;
    let mut draft = Draft::of(alloc, table, frame, contacts)?;
    draft.want_around_shape(plan)?;
    for below in 0..plan.universe.level() {
        draft.ask_at_level(plan, below + 1)?;
    }
    Ok(draft.into_table())
}

/// The table of a universe, whose cells have their places in the frame as numbers.
pub(crate) fn table_on<G: Grid>(
    alloc: Global,
    shape: &Shape<G>,
    universe: &Universe<G>,
    frame: Frame,
) -> Result<CoverTable, NoMemory>
    requires canonical { IsCanonicalListOf G.geometry shape.now shape.now }
    requires universe { IsUniverseOf G.geometry universe.now }
    requires shape { universe.now.shape ≡ shape.now }
    requires few { length universe.now.vars < 2 ^ 31 }
    ensures { IfOk result (λ table. table.vars ≡ length universe.now.vars) }
{
    // Reading the cells tells the proof that they are a polyform.
    let _cells = shape.cells();
    let rings = rings_of(alloc, shape)?;
    let plan = Plan {
        universe,
        shape,
        level: universe.level(),
        rings: &rings,
    };
    filled(alloc, &plan, frame)
}

/// The table of the corona formula of a shape and a universe of it, in which cells have their places in a rectangle as
/// numbers, and variables those of the universe.
///
/// The first wants, from 0 on, are of the cells around the shape in cell order, each for a variable of level 1. A
/// variable below the last level asks for the cells around its tile and outside the shape, in cell order, each for a
/// variable at most one level above it; one of level 2 or more asks besides for a variable of the level below whose tile
/// touches its own, which are found by steps between slots. Variables of one level that ask for the same cell share a
/// want.
///
/// The cost is a step for each cell of each tile and around it, and for each level the area of the rectangle.
pub fn table_of<G: Grid>(
    alloc: Global,
    shape: &Shape<G>,
    universe: &Universe<G>,
) -> Result<CoverTable, NoMemory>
    requires canonical { IsCanonicalListOf G.geometry shape.now shape.now }
    requires universe { IsUniverseOf G.geometry universe.now }
    requires shape { universe.now.shape ≡ shape.now }
    requires few { length universe.now.vars < 2 ^ 31 }
    ensures { IfOk result (λ table. table.vars ≡ length universe.now.vars) }
{
    table_on(alloc, shape, universe, Frame::around(shape, universe)?)
}
