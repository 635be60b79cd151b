//! The parents of one ticket, and what they grow into.
ghost use Rattle.std.specs.Prelude.{◌≡◌};
ghost use Rattle.heesch_listing.specs.Parts.{part_of};

use heesch_grid::Grid;
use heesch_grow::children;
use heesch_io::NoMemory;
use heesch_pool::Answer;
use heesch_shape::Shape;
use std::alloc::Global;

/// How many consecutive parents one ticket has. The last ticket may have fewer.
pub const PART: usize = 64;

/// The job whose item is the list of the children of one part of the parents.
#[derive(Clone, Copy)]
pub struct ChildrenOf<'a, G: Grid> {
    pub alloc: Global,
    pub parents: &'a [Shape<G>],
}

impl<'a, G: Grid> Answer<Vec<Shape<G>>> for ChildrenOf<'a, G> {
    ghost use Rattle.std.specs.Prelude.{⊤, IfOk};
    ghost use Rattle.heesch_grid.specs.Cells.{cells_before};
    ghost use Rattle.heesch_grid.specs.Listing.{ListsExactly};
    ghost use Rattle.heesch_grow.specs.Adds.{IsGrownFromSome};
    ghost use Rattle.heesch_listing.specs.Parts.{are_small, part_of};

    ghost accepts = { λ s _. are_small s.parents.now };

    ghost gives = { λ s number made. IfOk made
        (λ list. ListsExactly cells_before (IsGrownFromSome G.geometry (part_of number s.parents.now)) list.items) };

    ghost ready = { λ _. ⊤ };

    fn answer(&self, number: u32) -> Result<Vec<Shape<G>>, NoMemory> {
        children(self.alloc, part(self.parents, number))
    }
}

/// The parents of one ticket.
fn part<G: Grid>(parents: &[Shape<G>], number: u32) -> &[Shape<G>]
    ensures { result.now ≡ part_of number parents.now }
{
    let start = (number as usize * PART).min(parents.len());
    let rest = &parents[start..];
    &rest[..PART.min(rest.len())]
}
