//! The table of the entries that were read.
ghost use Rattle.std.specs.Prelude.{◌≡◌, [], List, Bool, IfOk};
ghost use Rattle.heesch_cert.specs.declared.verdict.Verdict.{Verdict};
ghost use Rattle.heesch_reader.specs.declared.item.Item.{Item};
ghost use Rattle.heesch_table.specs.Counts.{counts_of};
ghost use Rattle.heesch_table.specs.Texts.{tally_text};

use crate::answers::Counted;
use crate::counting::{count_entries, grid_behind};
use crate::tally::Tally;
use heesch_grid::GridName;
use heesch_io::NoMemory;
use heesch_reader::Item;
use std::alloc::Global;

/// The grid of the header, once it was read, and the tally of the entries behind it.
#[derive(Drop)]
pub struct Table {
    pub grid: Option<GridName>,
    pub tally: Tally,
}

impl Table {
    ghost use Rattle.heesch_table.specs.TableSteps.{HasTable, AreReady, CountsItems};

    /// Nothing was read. It takes no memory.
    pub fn new(alloc: Global) -> Table
        ensures { HasTable [] result }
    {
        Table {
            grid: None,
            tally: Tally::new(alloc),
        }
    }

    /// Counts the entries among the items that come next. Some where the cells of one are no shape.
    pub fn count(&mut self, alloc: Global, items: &[Item]) -> Counted
        requires { (found : List Item) × HasTable found self.old × AreReady found items.now }
        ensures { IfOk result (CountsItems self.old self.new items.now) }
    {
        self.grid = grid_behind(self.grid, items);
        match self.grid {
            None => Ok(None),
            Some(grid) => count_entries(grid, &mut self.tally, alloc, items),
        }
    }

    /// The text of the tally.
    pub fn text(&self, alloc: Global) -> Result<Vec<u8>, NoMemory>
        ensures { (found : List (Bool × Verdict)) → self.now.tally ≡ counts_of found
            → IfOk result (λ text. text.items ≡ tally_text found) }
    {
        let mut text = Vec::new(alloc);
        self.tally.write(&mut text)?;
        Ok(text)
    }
}
