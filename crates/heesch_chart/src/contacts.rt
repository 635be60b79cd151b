//! Which placements of a shape touch a placement of it, by how far their first cells lie apart.
ghost use Rattle.std.specs.Prelude.{◌≤◌, ◌<◌, length};
ghost use Rattle.heesch_encode.specs.Plans.{IsPlan};

use crate::frame::Frame;
use heesch_encode::{Plan, write_moved};
use heesch_grid::{Cell, Grid};
use heesch_io::NoMemory;
use heesch_place::Universe;
use std::alloc::Global;

/// A shape under a turn: how far its cells, and the cells around it, lie from its first one, in places.
#[derive(Drop)]
struct TurnedTile {
    cells: Vec<i64>,
    ring: Vec<i64>,
}

/// The placements that touch a placement, by slots: a placement has the slot whose number is that of its first cell's
/// place, times the number of turns, and the rank of its turn. Turns are ranked so that slots rise as cell lists do.
#[derive(Drop)]
pub(crate) struct Contacts {
    turns: u32,
    /// By turn.
    ranks: Vec<u32>,
    /// By turn, how far the slots of the placements that touch lie behind the first slot of the place, in rising
    /// order; those before it by numbers that wrap.
    steps: Vec<Vec<u32>>,
    /// By turn, how far the places of the cells around the tile lie behind that of its first cell, in cell order; those
    /// before it by numbers that wrap.
    rings: Vec<Vec<u32>>,
}

/// By turn, a variable whose tile has that turn, or 0.
fn samples_of<G: Grid>(alloc: Global, universe: &Universe<G>) -> Result<Vec<u32>, NoMemory> {
    let mut samples = vec![in alloc; 0; G::TURNS as usize]?;
    for before in 0..universe.count() {
        let turn = universe.placement_of(before + 1).iso().turn;
        if let Some(sample) = samples.get_mut(turn as usize) {
            *sample = before + 1;
        }
    }
    Ok(samples)
}

/// How far the cells lie from the first place.
fn distances(
    alloc: Global,
    frame: Frame,
    first: u32,
    cells: &[Cell],
) -> Result<Vec<i64>, NoMemory> {
    let mut distances = Vec::new(alloc);
    for c in cells {
        distances.push(i64::from(frame.place(*c)).wrapping_sub(i64::from(first)))?;
    }
    Ok(distances)
}

/// The tile of a variable, and the cells around it.
fn turned_tile<G: Grid>(
    alloc: Global,
    plan: &Plan<G>,
    frame: Frame,
    variable: u32,
) -> Result<TurnedTile, NoMemory>
    requires plan { IsPlan G.geometry plan.now.universe.now plan.now.shape.now plan.now.level plan.now.rings.now }
    requires number { (1 ≤ variable) × (variable ≤ length plan.now.universe.now.vars) }
{
    let mut ring = Vec::new(alloc);
    write_moved(&mut ring, plan.rings, plan.universe, variable)?;
    let cells = plan.universe.placement_of(variable).shape().cells();
    let first = match cells.first() {
        Some(first) => frame.place(*first),
        None => 0,
    };
    Ok(TurnedTile {
        cells: distances(alloc, frame, first, cells)?,
        ring: distances(alloc, frame, first, &ring)?,
    })
}

/// The shape under each turn that a tile of the universe has.
fn turned_tiles<G: Grid>(
    alloc: Global,
    plan: &Plan<G>,
    frame: Frame,
) -> Result<Vec<TurnedTile>, NoMemory>
    requires { IsPlan G.geometry plan.now.universe.now plan.now.shape.now plan.now.level plan.now.rings.now }
{
    let mut tiles = Vec::new(alloc);
    for sample in &samples_of(alloc, plan.universe)? {
        if 1 <= *sample && *sample <= plan.universe.count() {
            tiles.push(turned_tile(alloc, plan, frame, *sample)?)?;
        } else {
            tiles.push(TurnedTile {
                cells: Vec::new(alloc),
                ring: Vec::new(alloc),
            })?;
        }
    }
    Ok(tiles)
}

/// Whether the one list comes first, where they differ.
fn is_before(one: &[i64], other: &[i64]) -> bool {
    for (x, y) in one.iter().zip(other) {
        if *x != *y {
            return *x < *y;
        }
    }
    false
}

/// How many of the turned shapes come before this one.
fn rank_of(tiles: &[TurnedTile], tile: &TurnedTile) -> u32 {
    let mut rank = 0u32;
    for other in tiles {
        if is_before(&other.cells, &tile.cells) {
            rank = rank.saturating_add(1);
        }
    }
    rank
}

/// The slots around that of a placement, as marks: the first one is that of rank 0 at the least place.
#[derive(Drop)]
struct SlotMarks {
    least: i64,
    turns: i64,
    marks: Vec<bool>,
}

impl SlotMarks {
    /// No mark, with room for the slots of all tiles that have a cell around this one.
    fn around(
        alloc: Global,
        tile: &TurnedTile,
        tiles: &[TurnedTile],
        turns: u32,
    ) -> Result<SlotMarks, NoMemory> {
        let mut longest = 0;
        for other in tiles {
            longest = other.cells.last().copied().unwrap_or(0).max(longest);
        }
        let first = tile.ring.first().copied().unwrap_or(0);
        let last = tile.ring.last().copied().unwrap_or(0);
        let least = first.wrapping_sub(longest);
        let places = last.wrapping_sub(least).wrapping_add(1);
        let turns = i64::from(turns);
        let slots = usize::try_from(places.wrapping_mul(turns)).unwrap_or(0);
        Ok(SlotMarks {
            least,
            turns,
            marks: vec![in alloc; false; slots]?,
        })
    }

    /// Marks the slots of the tiles of a rank that have one of these places, or takes the marks away.
    fn mark(&mut self, places: &[i64], tile: &[i64], rank: u32, value: bool) {
        for place in places {
            for cell in tile {
                let apart = place.wrapping_sub(*cell).wrapping_sub(self.least);
                let slot = apart.wrapping_mul(self.turns).wrapping_add(i64::from(rank));
                if let Ok(slot) = usize::try_from(slot) {
                    if let Some(mark) = self.marks.get_mut(slot) {
                        *mark = value;
                    }
                }
            }
        }
    }

    /// How far each marked slot lies behind the first one of the place, in rising order.
    fn steps(&self, alloc: Global) -> Result<Vec<u32>, NoMemory> {
        let mut step = wrapped(self.least.wrapping_mul(self.turns));
        let mut steps = Vec::new(alloc);
        for mark in &self.marks {
            if *mark {
                steps.push(step)?;
            }
            step = step.wrapping_add(1);
        }
        Ok(steps)
    }
}

/// The number in 32 bits, where it may wrap.
fn wrapped(number: i64) -> u32 {
    u32::try_from(number.rem_euclid(1 << 32)).unwrap_or(0)
}

/// The numbers in 32 bits, where they may wrap.
fn all_wrapped(alloc: Global, numbers: &[i64]) -> Result<Vec<u32>, NoMemory> {
    let mut all = Vec::with_capacity(alloc, numbers.len())?;
    for number in numbers {
        all.push(wrapped(*number))?;
    }
    Ok(all)
}

/// The steps to the slots of the tiles that touch the tile: those that have a cell around it, and none of its own.
fn steps_beside(
    alloc: Global,
    tile: &TurnedTile,
    tiles: &[TurnedTile],
    ranks: &[u32],
    turns: u32,
) -> Result<Vec<u32>, NoMemory> {
    let mut marks = SlotMarks::around(alloc, tile, tiles, turns)?;
    for (other, rank) in tiles.iter().zip(ranks) {
        marks.mark(&tile.ring, &other.cells, *rank, true);
        marks.mark(&tile.cells, &other.cells, *rank, false);
    }
    marks.steps(alloc)
}

impl Contacts {
    /// Those of the tiles of a universe; none where it has one level alone. A step for each cell of a turned shape and
    /// each cell around another, for each two turns, and for each slot near a placement.
    pub fn of<G: Grid>(alloc: Global, plan: &Plan<G>, frame: Frame) -> Result<Contacts, NoMemory>
        requires { IsPlan G.geometry plan.now.universe.now plan.now.shape.now plan.now.level plan.now.rings.now }
    {
        let mut contacts = Contacts {
            turns: G::TURNS,
            ranks: Vec::new(alloc),
            steps: Vec::new(alloc),
            rings: Vec::new(alloc),
        };
        if plan.universe.level() >= 2 {
            let tiles = turned_tiles(alloc, plan, frame)?;
            contacts.add(alloc, &tiles)?;
        }
        Ok(contacts)
    }

    /// Adds the ranks, the steps and the cells around of these turned shapes.
    fn add(&mut self, alloc: Global, tiles: &[TurnedTile]) -> Result<(), NoMemory> {
        for tile in tiles {
            self.ranks.push(rank_of(tiles, tile))?;
            self.rings.push(all_wrapped(alloc, &tile.ring)?)?;
        }
        for tile in tiles {
            let steps = steps_beside(alloc, tile, tiles, &self.ranks, self.turns)?;
            self.steps.push(steps)?;
        }
        Ok(())
    }

    /// How many slots so many places have.
    pub fn slots(&self, places: u32) -> usize {
        (places as usize).saturating_mul(self.turns as usize)
    }

    /// The first slot of a place.
    pub fn first_slot(&self, place: u32) -> u32 {
        place.wrapping_mul(self.turns)
    }

    /// The slot of a placement of a turn whose first cell has this place.
    pub fn slot(&self, place: u32, turn: u32) -> u32 {
        let rank = self.ranks.get(turn as usize).copied().unwrap_or(0);
        self.first_slot(place).wrapping_add(rank)
    }

    /// How far the places of the cells around a tile of this turn lie behind that of its first cell, in cell order.
    pub fn ring(&self, turn: u32) -> &[u32] {
        match self.rings.get(turn as usize) {
            Some(ring) => ring,
            None => &[],
        }
    }

    /// By turn, how far the slots of the placements that touch one of this turn lie behind the first slot of its place,
    /// in rising order. They are handed over.
    pub fn take_steps(&mut self, alloc: Global) -> Vec<Vec<u32>> {
        std::mem::replace(&mut self.steps, Vec::new(alloc))
    }
}
