//! The numbers of the second corona formula's clauses, from the table of its universe.
ghost use Rattle.std.specs.Prelude.{◌<◌, ◌≤◌};

use heesch_cover::CoverTable;
use heesch_encode::digits_of_ranks;
use heesch_io::NoMemory;
use std::alloc::Global;

/// What the last family has of a cell: how many clauses of the formula come before those of the cell, how many owner
/// variables, and how many owner variables the cell has.
#[derive(Clone, Copy)]
struct OwnedCell {
    clauses: u32,
    owners: u32,
    digits: u32,
    ghost few: { digits ≤ 64 },
}

/// What the last family has of a variable and a cell of its tile: the number of its first clause, the place of the
/// first owner variable among all, from 0, the rank whose bits the owner variables are, and how many they are.
#[derive(Clone, Copy)]
pub(crate) struct Rank {
    pub clause: u32,
    pub owner: u32,
    pub rank: usize,
    pub digits: u32,
    ghost few: { digits ≤ 64 },
}

impl Rank {
    /// Bit t of the rank.
    pub fn bit(&self, t: u32) -> bool
        requires { t < 64 }
    {
        (self.rank >> t) & 1 == 1
    }
}

/// By which numbers the clauses of the second corona formula go, family after family, as its definition lists them:
/// those of the cells around the shape, those of the cells that variables ask for, those of their supports, and those
/// of the owner variables of cells.
#[derive(Drop)]
pub(crate) struct Numbers {
    /// By variable, how many clauses come before its first one of family 2.
    covering: Vec<u32>,
    /// How many clauses the first two families have.
    common: u32,
    /// The last variable of level 1.
    lowest: u32,
    /// By cell.
    cells: Vec<OwnedCell>,
    /// How many owner variables there are.
    pub owners: u32,
    /// How many clauses there are.
    pub count: u32,
}

/// The number in 32 bits, or the greatest of them.
fn short(number: usize) -> u32 {
    u32::try_from(number).unwrap_or(u32::MAX)
}

/// How many owner variables a cell has that so many variables have.
fn digits_at(holders: usize) -> u32
    ensures { result ≤ 64 }
{
    if holders < 2 {
        0
    } else {
        digits_of_ranks(holders)
    }
}

impl Numbers {
    /// Those of a table of a corona formula with so many cells, where `lowest` is the last variable of level 1. A step
    /// for each variable and each cell.
    pub fn of(
        alloc: Global,
        table: &CoverTable,
        cells: u32,
        lowest: u32,
    ) -> Result<Numbers, NoMemory> {
        let mut numbers = Numbers {
            covering: vec![in alloc; 0; 1]?,
            common: 0,
            lowest,
            cells: Vec::new(alloc),
            owners: 0,
            count: short(table.first().len()),
        };
        numbers.count_asked(table)?;
        numbers.count_owners(table, cells)?;
        Ok(numbers)
    }

    /// Counts the clauses of families 2 and 3: one for each cell that a variable asks for, and one for its support.
    fn count_asked(&mut self, table: &CoverTable) -> Result<(), NoMemory> {
        let mut supports = 0u32;
        for before in 0..table.vars() {
            let variable = before + 1;
            if table.asks_near(variable) {
                supports = supports.wrapping_add(1);
            }
            self.covering.push(self.count)?;
            self.count = self.count.wrapping_add(short(table.asked(variable).len()));
        }
        self.common = self.count;
        self.count = self.count.wrapping_add(supports);
        Ok(())
    }

    /// Counts the clauses and variables of the last family.
    fn count_owners(&mut self, table: &CoverTable, cells: u32) -> Result<(), NoMemory> {
        for cell in 0..cells {
            let holders = table.holders(cell).len();
            let digits = digits_at(holders);
            self.cells.push(OwnedCell {
                clauses: self.count,
                owners: self.owners,
                digits,
            })?;
            self.count = self.count.wrapping_add(short(holders).wrapping_mul(digits));
            self.owners = self.owners.wrapping_add(digits);
        }
        Ok(())
    }

    /// The number of the clause that a variable asks for a want. A look at each want that it asks for.
    pub fn asked(&self, table: &CoverTable, variable: u32, want: u32) -> u32 {
        if table.near_want(variable) == Some(want) {
            return self.common.wrapping_add(variable.wrapping_sub(self.lowest));
        }
        let wants = table.asked(variable);
        let place = wants.iter().position(|asked| *asked == want).unwrap_or(0);
        let before = self.covering.get(variable as usize).copied().unwrap_or(0);
        before.wrapping_add(short(place)).wrapping_add(1)
    }

    /// What the last family has of a variable and a cell, where the variable's tile has it. A binary search.
    pub fn rank(&self, table: &CoverTable, variable: u32, cell: u32) -> Option<Rank> {
        let owned = self.cells.get(cell as usize)?;
        let rank = table.holders(cell).binary_search(&variable).ok()?;
        let before = short(rank).wrapping_mul(owned.digits);
        Some(Rank {
            clause: owned.clauses.wrapping_add(before).wrapping_add(1),
            owner: owned.owners,
            rank,
            digits: owned.digits,
        })
    }
}
