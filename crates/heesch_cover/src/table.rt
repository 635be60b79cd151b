//! The table of a cover problem.
ghost use Rattle.std.specs.Prelude.{◌≡◌, ◌+◌, ◌<◌, ◌^◌, IfOk, OnOk, OnErr, length};
ghost use Rattle.heesch_cover.specs.Sizes.{AreBelow, Lists, Sizes};

use crate::NumberLists;
use crate::lists::Span;
use crate::near::{Reach, Slots};
use heesch_io::NoMemory;
use std::alloc::Global;
use std::marker::Model;

/// A want: for one of the members of a list up to a number.
#[derive(Debug, Clone, Copy)]
pub struct Want {
    /// The list: that of a cell, which has its number, or one behind those.
    pub list: u32,
    /// The greatest member that serves the want.
    pub up_to: u32,
    start: u32,
    end: u32,
}

/// Variables from 1, each with the cells of its tile, and wants from 0, each with its candidates.
///
/// Two variables whose tiles have a cell in common aren't both chosen. Of the candidates of a want one has to be
/// chosen once the want holds: from the start, or since a variable that asks for it is chosen. Contracts see how many
/// there are.
#[derive(Drop)]
pub struct CoverTable {
    vars: u32,
    /// By variable, the cells of its tile.
    tiles: NumberLists,
    /// By cell, its holders; behind them lists of candidates.
    members: NumberLists,
    wants: Vec<Want>,
    first: Vec<u32>,
    /// By variable, the wants that it asks for.
    asked: NumberLists,
    /// What variables ask for besides, found by steps.
    slots: Slots,
}

impl Model for CoverTable {
    ghost use Rattle.std.specs.Prelude.{◌≡◌, ◌+◌, ◌<◌, ◌^◌, vec_len};
    ghost use Rattle.heesch_cover.specs.Sizes.{Sizes};

    ghost Value = { Sizes };

    ghost view = { λ t. record { vars = t.vars; cells = t.tiles.bound; wants = vec_len t.wants } };

    ghost invariant = { λ t. (t.members.bound ≡ t.vars + 1) × (t.vars < 2 ^ 31) };
}

impl CoverTable {
    /// The table of these tiles, without wants: a list for each variable in turn has the numbers of its tile's cells,
    /// which are below the bound. The cost is the number of all these and of the cells. 2^31 variables or more count
    /// as want of memory.
    pub fn of(alloc: Global, tiles: NumberLists) -> Result<CoverTable, NoMemory>
        ensures vars { IfOk result (λ t. t.vars ≡ tiles.count) }
        ensures cells { IfOk result (λ t. t.cells ≡ tiles.bound) }
        ensures wants { IfOk result (λ t. t.wants ≡ 0) }
    {
        let vars = tiles.count();
        if vars >= 1 << 31 {
            return Err(NoMemory);
        }
        let members = tiles.transposed(alloc)?;
        Ok(CoverTable {
            vars: vars as u32,
            tiles,
            members,
            wants: Vec::new(alloc),
            first: Vec::new(alloc),
            asked: NumberLists::new(alloc, u32::MAX),
            slots: Slots::new(alloc, Vec::new(alloc)),
        })
    }

    /// The number of the variables. It takes no memory.
    pub fn vars(&self) -> u32
        ensures vars { result ≡ self.now.vars }
        ensures small { result < 2 ^ 31 }
    {
        self.vars
    }

    /// The number of the wants. It takes no memory.
    pub fn wants(&self) -> usize
        ensures { result ≡ self.now.wants }
    {
        self.wants.len()
    }

    /// How many lists of members there are: one for each cell, and those of wants for one of given variables. It takes
    /// no memory.
    pub fn lists(&self) -> usize {
        self.members.count()
    }

    fn add_want(&mut self, want: Want) -> Result<u32, NoMemory>
        ensures number { IfOk result (λ want. want ≡ self.old.wants) }
        ensures ok { OnOk result (self.new ≡ record self.old { wants = self.old.wants + 1 }) }
        ensures err { OnErr result (self.new ≡ self.old) }
    {
        let number = self.wants.len();
        if number >= u32::MAX as usize {
            return Err(NoMemory);
        }
        self.wants.push(want)?;
        Ok(number as u32)
    }

    /// One more want, for the cell to be covered by a variable up to this one. Its number is answered; at want of
    /// memory nothing has changed. The cost is the logarithm of the number of the cell's holders.
    pub fn want_cell(&mut self, cell: u32, up_to: u32) -> Result<u32, NoMemory>
        ensures number { IfOk result (λ want. want ≡ self.old.wants) }
        ensures ok { OnOk result (self.new ≡ record self.old { wants = self.old.wants + 1 }) }
        ensures err { OnErr result (self.new ≡ self.old) }
    {
        let span = self.members.span(cell as usize);
        let count = self
            .holders(cell)
            .partition_point(|variable| *variable <= up_to);
        let end = span
            .start
            .saturating_add(u32::try_from(count).unwrap_or(u32::MAX));
        self.add_want(Want {
            list: cell,
            up_to,
            start: span.start,
            end,
        })
    }

    /// One more want, for one of these variables. Its number is answered; at want of memory nothing has changed. The
    /// cost is the number of the variables.
    pub fn want_one_of(&mut self, candidates: &[u32]) -> Result<u32, NoMemory>
        ensures number { IfOk result (λ want. want ≡ self.old.wants) }
        ensures ok { OnOk result (self.new ≡ record self.old { wants = self.old.wants + 1 }) }
        ensures err { OnErr result (self.new ≡ self.old) }
    {
        let index = self.members.count();
        self.members.push(candidates)?;
        let span = self.members.span(index);
        self.add_want(Want {
            list: u32::try_from(index).unwrap_or(u32::MAX),
            up_to: u32::MAX,
            start: span.start,
            end: span.end,
        })
    }

    /// The want holds from the start, or nothing has changed.
    pub fn want_first(&mut self, want: u32) -> Result<(), NoMemory>
        ensures { self.new ≡ self.old }
    {
        self.first.push(want)?;
        Ok(())
    }

    /// The next variable in number order, from 1, asks for these wants, or nothing has changed. A variable without
    /// such a call asks for none. The cost is the number of the wants.
    pub fn ask(&mut self, wants: &[u32]) -> Result<(), NoMemory>
        ensures { self.new ≡ self.old }
    {
        self.asked.push(wants)
    }

    /// Each variable with a start asks for one more want: for one of the variables in the slots to which its steps lead.
    /// Such a want is made by `want_near`. It takes no memory.
    pub fn set_slots(&mut self, slots: Slots)
        ensures { self.new ≡ self.old }
    {
        self.slots = slots;
    }

    /// Whether the variable asks for one of those in slots. The cost is a look-up.
    pub fn asks_near(&self, variable: u32) -> bool {
        self.slots.asks(variable)
    }

    /// The slots whose variables the variable asks for. The cost is a few look-ups.
    pub fn reach(&self, variable: u32) -> Reach<'_> {
        self.slots.reach(variable)
    }

    /// The want of a variable for one of those in slots, where it was made. The cost is a look-up.
    pub fn near_want(&self, variable: u32) -> Option<u32> {
        self.slots.want(variable)
    }

    /// The want of a variable for one of those in slots, made where it wasn't; None where it asks for none. At want of
    /// memory nothing has changed. The cost is the number of the slots, at the first call for the variable.
    pub fn want_near(&mut self, variable: u32) -> Result<Option<u32>, NoMemory>
        ensures vars { self.new.vars ≡ self.old.vars }
        ensures cells { self.new.cells ≡ self.old.cells }
    {
        if !self.slots.asks(variable) {
            return Ok(None);
        }
        if let Some(want) = self.slots.want(variable) {
            return Ok(Some(want));
        }
        let candidates = self.slots.candidates(variable)?;
        let want = self.want_one_of(&candidates)?;
        self.slots.note(variable, want);
        Ok(Some(want))
    }

    /// The cells of a variable's tile. The cost is a look-up.
    pub fn cells(&self, variable: u32) -> &[u32] {
        match (variable as usize).checked_sub(1) {
            None => &[],
            Some(index) => self.tiles.list(index),
        }
    }

    /// The variables whose tiles have the cell, rising. The cost is a look-up.
    pub fn holders(&self, cell: u32) -> &[u32]
        ensures { AreBelow (self.now.vars + 1) result.now }
    {
        self.members.list(cell as usize)
    }

    /// The variables of which the want is for one. The cost is a look-up.
    pub fn candidates(&self, want: u32) -> &[u32]
        ensures { AreBelow (self.now.vars + 1) result.now }
    {
        match self.wants.get(want as usize) {
            None => &[],
            Some(want) => self.members.part(Span {
                start: want.start,
                end: want.end,
            }),
        }
    }

    /// A want. The cost is a look-up.
    pub fn want(&self, want: u32) -> Option<Want> {
        self.wants.get(want as usize).copied()
    }

    /// The wants that hold from the start. It takes no memory.
    pub fn first(&self) -> &[u32] {
        &self.first
    }

    /// The wants that a variable asks for. The cost is a look-up.
    pub fn asked(&self, variable: u32) -> &[u32] {
        match (variable as usize).checked_sub(1) {
            None => &[],
            Some(index) => self.asked.list(index),
        }
    }
}
