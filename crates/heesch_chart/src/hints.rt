//! The hints of a line: the numbers of the clauses that its reasons name.

use crate::numbers::{Numbers, Rank};
use heesch_cnf::Hints;
use heesch_cover::CoverTable;
use heesch_io::{NoMemory, Seq};
use heesch_lazy::Reason;
use std::alloc::Global;

/// How an owner variable of a cell that two tiles have tells them apart, where the first is chosen.
#[derive(Clone, Copy)]
enum Parting {
    /// It is set against the rank of the first, whose clause is false.
    Against {
        clause: u32,
    },
    /// It is set as the rank of the first has it, and the clause of the second says the rest.
    Set {
        clause: u32,
    },
    /// It is open: the clause of the first sets it to this value, and then that of the second says the rest.
    Open {
        owner: u32,
        value: bool,
        first: u32,
        second: u32,
    },
}

/// Writes the hints of one line after another.
#[derive(Drop)]
pub(crate) struct HintWriter {
    numbers: Numbers,
    /// By owner variable, twice the last line whose hints have set it, and one more where they made it true.
    set: Vec<u32>,
    line: u32,
    hints: Vec<u32>,
}

impl HintWriter {
    /// A writer that has written no line.
    pub fn new(alloc: Global, numbers: Numbers) -> Result<HintWriter, NoMemory> {
        let set = vec![in alloc; 0; numbers.owners as usize]?;
        Ok(HintWriter {
            numbers,
            set,
            line: 0,
            hints: Vec::new(alloc),
        })
    }

    /// The value of an owner variable that the hints of this line have set.
    fn value(&self, owner: u32) -> Option<bool> {
        let mark = self.set.get(owner as usize).copied()?;
        if mark / 2 == self.line {
            Some(mark % 2 == 1)
        } else {
            None
        }
    }

    /// The hints of this line have set the owner variable.
    fn set(&mut self, owner: u32, value: bool) {
        if let Some(mark) = self.set.get_mut(owner as usize) {
            *mark = self.line.wrapping_mul(2).wrapping_add(u32::from(value));
        }
    }

    /// How the owner variables of a cell tell two tiles apart that have these ranks there.
    fn parting_of(&self, one: Rank, other: Rank) -> Option<Parting> {
        let mut open = None;
        for t in 0..one.digits {
            let owner = one.owner.wrapping_add(t);
            let first = one.clause.wrapping_add(t);
            let second = other.clause.wrapping_add(t);
            let value = one.bit(t);
            let differ = value != other.bit(t);
            match self.value(owner) {
                Some(set) if set != value => return Some(Parting::Against { clause: first }),
                Some(_) if differ => return Some(Parting::Set { clause: second }),
                None if differ && open.is_none() => {
                    open = Some(Parting::Open {
                        owner,
                        value,
                        first,
                        second,
                    });
                }
                _ => {}
            }
        }
        open
    }

    /// The same at a cell, if both tiles have it.
    fn parting_at(&self, table: &CoverTable, cell: u32, tile: u32, other: u32) -> Option<Parting> {
        let one = self.numbers.rank(table, tile, cell)?;
        let two = self.numbers.rank(table, other, cell)?;
        self.parting_of(one, two)
    }

    /// How an owner variable tells apart two tiles that meet: one that is set, where there is one. For each cell of
    /// the first tile a search for it among those of the second, and for each that both have two binary searches.
    fn parting(&self, table: &CoverTable, tile: u32, other: u32) -> Option<Parting> {
        let others = table.cells(other);
        let mut open = None;
        for cell in table.cells(tile) {
            if others.binary_search(cell).is_err() {
                continue;
            }
            match self.parting_at(table, *cell, tile, other) {
                None => {}
                Some(Parting::Open { .. }) if open.is_some() => {}
                found @ Some(Parting::Open { .. }) => open = found,
                found => return found,
            }
        }
        open
    }

    /// Adds the hints for two tiles that meet, and says whether the line ends with them.
    fn add_apart(&mut self, table: &CoverTable, tile: u32, other: u32) -> Result<bool, NoMemory> {
        match self.parting(table, tile, other) {
            None => Ok(false),
            Some(Parting::Against { clause }) => {
                self.hints.push(clause)?;
                Ok(true)
            }
            Some(Parting::Set { clause }) => {
                self.hints.push(clause)?;
                Ok(false)
            }
            Some(
                Parting::Open {
                    owner,
                    value,
                    first,
                    second,
                },
            ) => {
                self.hints.push(first)?;
                self.set(owner, value);
                self.hints.push(second)?;
                Ok(false)
            }
        }
    }

    /// Adds the hints for a reason, and says whether the line ends with them.
    fn add(&mut self, table: &CoverTable, reason: Reason) -> Result<bool, NoMemory> {
        let number = match reason {
            Reason::Apart { tile, other } => return self.add_apart(table, tile, other),
            Reason::First { want } => want.wrapping_add(1),
            Reason::Asked { variable, want } => self.numbers.asked(table, variable, want),
            Reason::Line { index } => self.numbers.count.wrapping_add(index).wrapping_add(1),
        };
        self.hints.push(number)?;
        Ok(false)
    }

    /// The hints of the next line. They end before its last reason where an owner variable that they have set is
    /// against a tile that is chosen. A few steps for each reason, and for two tiles that meet those of `parting`.
    pub fn write(
        &mut self,
        alloc: Global,
        table: &CoverTable,
        reasons: &[Reason],
    ) -> Result<Hints, NoMemory> {
        self.line = self.line.wrapping_add(1);
        self.hints.clear();
        for reason in reasons {
            if self.add(table, *reason)? {
                break;
            }
        }
        Ok(Seq::from_vec(Vec::from_slice(alloc, &self.hints)?))
    }
}
