//! The text of a free list, of its shapes alone or with their plain tilings.
ghost use Rattle.std.specs.Prelude.{◌≡◌, ◌≤◌, IfOk};
ghost use Rattle.heesch_grid.specs.Names.{geometry_of};
ghost use Rattle.heesch_text.specs.Shapes.{list_text};
ghost use Rattle.heesch_app.specs.Outputs.{IsListText};

use crate::tilings::{plain_text_of, tilings_of};
use heesch_grid::{Grid, GridName};
use heesch_io::NoMemory;
use heesch_kite::on_grid;
use heesch_listing::all_shapes;
use heesch_pool::{Crew, Gate};
use heesch_shape::Shape;
use heesch_text::write_shape;
use std::alloc::Global;
use std::thread::Threads;

/// What the text of a free list tells of each shape, on a line of its own.
#[derive(Clone, Copy)]
pub enum ListForm {
    /// Its cells.
    Cells,
    /// Its cells and its plain tiling.
    Tilings,
}

/// The text of the free list of a grid and a size in cells.
pub fn free_list_text<T: Threads + Sync, H: Gate + Sync>(
    crew: &Crew<'_, T, H>,
    form: ListForm,
    grid: GridName,
    n: u32,
) -> Result<Vec<u8>, NoMemory>
    requires size { (1 ≤ n) × (n ≤ 31) }
    ensures { IfOk result (λ text. IsListText form (geometry_of grid) n text.items) }
{
    on_grid!(grid, free_list_text_of::<_, T, H>(crew, form, n))
}

fn free_list_text_of<G: Grid + Send + Sync, T: Threads + Sync, H: Gate + Sync>(
    crew: &Crew<'_, T, H>,
    form: ListForm,
    n: u32,
) -> Result<Vec<u8>, NoMemory>
    requires size { (1 ≤ n) × (n ≤ 31) }
    ensures { IfOk result (λ text. IsListText form G.geometry n text.items) }
{
    let shapes = all_shapes::<G, T, H>(crew, n)?;
    match form {
        ListForm::Cells => text_of(crew.alloc, &shapes),
        ListForm::Tilings => {
            let tilings = tilings_of(crew, &shapes)?;
            plain_text_of(crew.alloc, &shapes, &tilings)
        }
    }
}

/// A line for each shape.
fn text_of<G: Grid>(alloc: Global, shapes: &[Shape<G>]) -> Result<Vec<u8>, NoMemory>
    ensures { IfOk result (λ text. text.items ≡ list_text shapes.now) }
{
    let mut text = Vec::new(alloc);
    for shape in shapes {
        write_shape(shape.cells(), &mut text)?;
    }
    Ok(text)
}
