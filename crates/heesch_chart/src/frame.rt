//! Cells as numbers: their places in a rectangle that has all tiles and the cells around them.
ghost use Rattle.std.specs.Prelude.{◌≤◌, length};

use heesch_grid::{Cell, Grid};
use heesch_io::NoMemory;
use heesch_place::Universe;
use heesch_shape::Shape;

/// Two cells that touch differ by at most so much in each coordinate.
const REACH: i32 = 4;

/// The least rectangle that has some tiles, by its corners, and how wide the widest tile is.
#[derive(Clone, Copy)]
struct Extent {
    low: Cell,
    high: Cell,
    widest: u32,
}

impl Extent {
    /// With a tile of these cells too.
    fn with(self, cells: &[Cell]) -> Extent {
        let mut extent = self;
        let mut left = i32::MAX;
        let mut right = i32::MIN;
        for c in cells {
            left = left.min(c.a);
            right = right.max(c.a);
            extent.low.b = extent.low.b.min(c.b);
            extent.high.b = extent.high.b.max(c.b);
        }
        extent.low.a = extent.low.a.min(left);
        extent.high.a = extent.high.a.max(right);
        extent.widest = extent.widest.max(right.abs_diff(left));
        extent
    }
}

/// A rectangle of cells, numbered row by row from 0, so that numbers rise in cell order.
#[derive(Clone, Copy)]
pub(crate) struct Frame {
    low: Cell,
    width: u32,
    /// How many places it has.
    pub places: u32,
}

impl Frame {
    /// The rectangle that has the shape, the tiles of all variables, and every cell that touches one of them. A look
    /// at each cell of each tile. 2^32 places or more count as want of memory.
    pub fn around<G: Grid>(shape: &Shape<G>, universe: &Universe<G>) -> Result<Frame, NoMemory> {
        let origin = Cell { a: 0, b: 0 };
        let mut extent = Extent {
            low: origin,
            high: origin,
            widest: 0,
        };
        extent = extent.with(shape.cells());
        for before in 0..universe.count() {
            extent = extent.with(universe.placement_of(before + 1).shape().cells());
        }
        Frame::of(extent)
    }

    /// The rectangle of this extent, with what lies within reach of it, and wider than that by the length of a step
    /// from a tile to one that touches it: so a step past the end of a row leads to places without a cell.
    fn of(extent: Extent) -> Result<Frame, NoMemory> {
        let low = Cell {
            a: extent.low.a.saturating_sub(REACH),
            b: extent.low.b.saturating_sub(REACH),
        };
        let high = Cell {
            a: extent.high.a.saturating_add(REACH),
            b: extent.high.b.saturating_add(REACH),
        };
        let step = (REACH as u32)
            .saturating_add(extent.widest)
            .saturating_mul(2);
        let width = high
            .a
            .abs_diff(low.a)
            .saturating_add(1)
            .saturating_add(step);
        let rows = high.b.abs_diff(low.b).saturating_add(1);
        let places = width.checked_mul(rows).ok_or(NoMemory)?;
        Ok(Frame { low, width, places })
    }

    /// The place of a cell of the rectangle. A constant time.
    pub fn place(&self, c: Cell) -> u32 {
        let row = c.b.abs_diff(self.low.b);
        let column = c.a.abs_diff(self.low.a);
        row.wrapping_mul(self.width).wrapping_add(column)
    }
}
