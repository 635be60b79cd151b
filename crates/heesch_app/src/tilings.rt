//! The plain tilings of shapes, and their text.
ghost use Rattle.std.specs.Prelude.{◌≡◌, length, IfOk, IsTrue};
ghost use Rattle.heesch_listing.specs.Parts.{are_small};
ghost use Rattle.heesch_app.specs.Plains.{plain_list_text};
ghost use Rattle.heesch_app.specs.Tilings.{ArePlain};

use crate::plains::write_plain;
use heesch_grid::Grid;
use heesch_io::NoMemory;
use heesch_pool::{Answer, Crew, Gate, Job};
use heesch_shape::Shape;
use heesch_tiling::{Plain, plain};
use std::alloc::Global;
use std::thread::Threads;

/// The job whose item is the plain tiling of one of the shapes.
#[derive(Clone, Copy)]
struct PlainOf<'a, G: Grid> {
    shapes: &'a [Shape<G>],
}

impl<'a, G: Grid> Answer<Option<Plain>> for PlainOf<'a, G> {
    ghost use Rattle.std.specs.Prelude.{⊤, IfOk, List, length, nat_lt, slice_index_or, ◌&&◌};
    ghost use Rattle.heesch_grid.specs.declared.Cell.{Cell};
    ghost use Rattle.heesch_grid.specs.Tiling.{IsPlain};
    ghost use Rattle.heesch_listing.specs.Parts.{are_small};
    ghost use Rattle.heesch_tiling.specs.PlainAnswer.{answered};

    ghost accepts = { λ s number. nat_lt number (length s.shapes.now) && are_small s.shapes.now };

    ghost gives = { λ s number tiling. IfOk tiling
        (λ t. (d : List Cell) → IsPlain G.geometry (slice_index_or s.shapes.now number d) (answered t)) };

    ghost ready = { λ _. ⊤ };

    fn answer(&self, number: u32) -> Result<Option<Plain>, NoMemory> {
        Ok(plain(&self.shapes[number as usize]))
    }
}

/// The plain tilings of the shapes, in their order.
pub fn tilings_of<G: Grid + Send + Sync, T: Threads + Sync, H: Gate + Sync>(
    crew: &Crew<'_, T, H>,
    shapes: &[Shape<G>],
) -> Result<Vec<Option<Plain>>, NoMemory>
    requires small { IsTrue (are_small shapes.now) }
    ensures { IfOk result (λ tilings. ArePlain G.geometry shapes.now tilings.items) }
{
    let Ok(count) = u32::try_from(shapes.len()) else {
        return Err(NoMemory);
    };
    let job = Job::new(PlainOf { shapes }, count);
    crew.run_all(&job)
}

/// A line for each shape and its tiling.
pub fn plain_text_of<G: Grid>(
    alloc: Global,
    shapes: &[Shape<G>],
    tilings: &[Option<Plain>],
) -> Result<Vec<u8>, NoMemory>
    requires { length tilings.now ≡ length shapes.now }
    ensures { IfOk result (λ text. text.items ≡ plain_list_text shapes.now tilings.now) }
{
    let mut text = Vec::new(alloc);
    for (i, shape) in shapes.iter().enumerate() {
        write_plain(shape.cells(), &tilings[i], &mut text)?;
    }
    Ok(text)
}
