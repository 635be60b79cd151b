//! A cover table that is being filled with wants.
ghost use Rattle.std.specs.Prelude.{◌≡◌, ◌<◌, ◌≤◌, IfOk, length};
ghost use Rattle.heesch_encode.specs.Plans.{IsPlan};
ghost use Rattle.heesch_place.specs.Universes.{IsUniverseOf};

use crate::contacts::Contacts;
use crate::frame::Frame;
use heesch_cover::{CoverTable, Slots, Start};
use heesch_encode::{Plan, last_below, write_ring};
use heesch_grid::Grid;
use heesch_io::NoMemory;
use heesch_place::Universe;
use heesch_shape::Shape;
use std::alloc::Global;

/// The variables of a level, by their numbers: those behind `after`, up to `last`.
#[derive(Clone, Copy)]
struct LevelSpan {
    after: u32,
    last: u32,
}

impl LevelSpan {
    /// Two binary searches.
    fn of<G: Grid>(universe: &Universe<G>, level: u32) -> LevelSpan
        requires universe { IsUniverseOf G.geometry universe.now }
        requires level { level ≤ 6 }
        ensures { result.last ≤ length universe.now.vars }
    {
        LevelSpan {
            after: last_below(universe, level),
            last: last_below(universe, level + 1),
        }
    }
}

/// A level, how many wants there were before its variables asked for any, and the last variable up to the level above.
#[derive(Clone, Copy)]
struct Asking {
    level: u32,
    earlier: usize,
    above: u32,
}

/// A table and what its wants are found by, with lists that are used again for each variable.
#[derive(Drop)]
pub(crate) struct Draft {
    table: CoverTable,
    frame: Frame,
    /// By place, the number of the last want of the cell and one more, or 0.
    wanted: Vec<u32>,
    /// By place, whether the shape has the cell.
    inside: Vec<bool>,
    contacts: Contacts,
    /// A layer for each level but the last, with the variables of the level.
    slots: Slots,
    asked: Vec<u32>,
    alloc: Global,
}

/// The want of the cell at a place for a variable up to the level above: the last one of the cell, where a variable of
/// this level has asked for it before.
fn want_at(
    table: &mut CoverTable,
    wanted: &mut [u32],
    place: u32,
    asking: Asking,
) -> Result<u32, NoMemory>
    ensures { table.new.vars ≡ table.old.vars }
{
    if let Some(next) = wanted.get(place as usize).copied() {
        if next as usize > asking.earlier {
            return Ok(next - 1);
        }
    }
    let want = table.want_cell(place, asking.above)?;
    if let Some(next) = wanted.get_mut(place as usize) {
        *next = want.saturating_add(1);
    }
    Ok(want)
}

/// By place, whether the shape has the cell.
fn marks_of<G: Grid>(alloc: Global, frame: Frame, shape: &Shape<G>) -> Result<Vec<bool>, NoMemory> {
    let mut marks = vec![in alloc; false; frame.places as usize]?;
    for c in shape.cells() {
        if let Some(mark) = marks.get_mut(frame.place(*c) as usize) {
            *mark = true;
        }
    }
    Ok(marks)
}

impl Draft {
    /// The table, without wants yet.
    pub fn of(
        alloc: Global,
        table: CoverTable,
        frame: Frame,
        mut contacts: Contacts,
    ) -> Result<Draft, NoMemory>
        ensures { IfOk result (λ draft. draft.table ≡ table) }
    {
        let slots = Slots::new(alloc, contacts.take_steps(alloc));
        Ok(Draft {
            table,
            frame,
            wanted: vec![in alloc; 0; frame.places as usize]?,
            contacts,
            slots,
            inside: Vec::new(alloc),
            asked: Vec::new(alloc),
            alloc,
        })
    }

    /// The table, whose variables of level 2 or more ask besides for one of the level below that touches them.
    pub fn into_table(self) -> CoverTable
        ensures { result ≡ self.table }
    {
        let Draft {
            mut table,
            slots,
            ..
        } = self;
        table.set_slots(slots);
        table
    }

    /// Each cell around the shape is wanted, in cell order, for a variable of level 1.
    pub fn want_around_shape<G: Grid>(&mut self, plan: &Plan<G>) -> Result<(), NoMemory>
        requires { IsPlan G.geometry plan.now.universe.now plan.now.shape.now plan.now.level plan.now.rings.now }
        ensures { self.new.table.vars ≡ self.old.table.vars }
    {
        let mut ring = Vec::new(self.alloc);
        write_ring(&mut ring, plan.shape)?;
        let span = LevelSpan::of(plan.universe, 1);
        for c in &ring {
            let want = self.table.want_cell(self.frame.place(*c), span.last)?;
            self.table.want_first(want)?;
        }
        self.inside = marks_of(self.alloc, self.frame, plan.shape)?;
        Ok(())
    }

    /// Whether the shape has the cell at a place.
    fn is_inside(&self, place: u32) -> bool {
        self.inside.get(place as usize).copied().unwrap_or(false)
    }

    /// Asks for each cell around the variable's tile, which has this turn, that lies outside the shape.
    fn ask_for_cells(&mut self, variable: u32, turn: u32, asking: Asking) -> Result<(), NoMemory>
        ensures { self.new.table.vars ≡ self.old.table.vars }
    {
        let first = self.first_place(variable);
        for i in 0..self.contacts.ring(turn).len() {
            let step = self.contacts.ring(turn).get(i).copied().unwrap_or(0);
            let place = first.wrapping_add(step);
            if !self.is_inside(place) {
                let want = want_at(&mut self.table, &mut self.wanted, place, asking)?;
                self.asked.push(want)?;
            }
        }
        Ok(())
    }

    /// The place of the first cell of a variable's tile.
    fn first_place(&self, variable: u32) -> u32 {
        self.table.cells(variable).first().copied().unwrap_or(0)
    }

    /// Adds the layer of a level: each of its variables in the slot of its tile.
    fn add_layer<G: Grid>(
        &mut self,
        universe: &Universe<G>,
        span: LevelSpan,
    ) -> Result<(), NoMemory>
        requires { span.last ≤ length universe.now.vars }
        ensures { self.new.table.vars ≡ self.old.table.vars }
    {
        let mut layer = vec![in self.alloc; 0u32; self.contacts.slots(self.frame.places)]?;
        for before in span.after..span.last {
            let variable = before + 1;
            let turn = universe.placement_of(variable).iso().turn;
            let slot = self.contacts.slot(self.first_place(variable), turn);
            if let Some(entry) = layer.get_mut(slot as usize) {
                *entry = variable;
            }
        }
        self.slots.add_layer(layer)
    }

    /// From where the steps of a variable of this level and turn go, to those of the level below that touch it.
    fn start(&self, variable: u32, turn: u32, level: u32) -> Option<Start> {
        let layer = level.checked_sub(2)?;
        Some(Start {
            layer,
            slot: self.contacts.first_slot(self.first_place(variable)),
            kind: turn,
        })
    }

    /// A variable of a level asks for its wants.
    fn ask<G: Grid>(
        &mut self,
        plan: &Plan<G>,
        variable: u32,
        asking: Asking,
    ) -> Result<(), NoMemory>
        requires plan { IsPlan G.geometry plan.now.universe.now plan.now.shape.now plan.now.level plan.now.rings.now }
        requires number { (1 ≤ variable) × (variable ≤ length plan.now.universe.now.vars) }
        ensures { self.new.table.vars ≡ self.old.table.vars }
    {
        let turn = plan.universe.placement_of(variable).iso().turn;
        self.asked.clear();
        if asking.level < plan.level {
            self.ask_for_cells(variable, turn, asking)?;
        }
        self.table.ask(&self.asked)?;
        let start = self.start(variable, turn, asking.level);
        self.slots.start(start)
    }

    /// Each variable of the level asks for its wants.
    pub fn ask_at_level<G: Grid>(&mut self, plan: &Plan<G>, level: u32) -> Result<(), NoMemory>
        requires plan { IsPlan G.geometry plan.now.universe.now plan.now.shape.now plan.now.level plan.now.rings.now }
        requires level { (1 ≤ level) × (level ≤ 6) }
        ensures { self.new.table.vars ≡ self.old.table.vars }
    {
        let span = LevelSpan::of(plan.universe, level);
        let asking = Asking {
            level,
            earlier: self.table.wants(),
            above: last_below(plan.universe, level + 2),
        };
        for before in span.after..span.last {
            self.ask(plan, before + 1, asking)?;
        }
        if level < plan.level {
            self.add_layer(plan.universe, span)?;
        }
        Ok(())
    }
}
