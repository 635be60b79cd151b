//! A polyform by its cell list.
ghost use Rattle.std.specs.Prelude.{◌≡◌, ◌<◌, ◌≤◌, ◌≤ℤ◌, [], ◌∷◌, true, false, neg_ℤ, pos, length, List, All, IfOk};
ghost use Rattle.std.specs.Prelude.{IfErr, IsPermutation, IsSorted};
ghost use Rattle.std.proofs.Common.{refl};
ghost use Rattle.std.specs.Cmp.{partial_order_from_total};
ghost use Rattle.std.specs.Cmp.Lexicographic.{slice_cmp};
ghost use Rattle.std.specs.Ordering.{as_partial_cmp, eq_by_cmp};
ghost use Rattle.heesch_shape.specs.Order.{list_equivalence, list_per, list_total};
ghost use Rattle.heesch_grid.specs.Cells.{cell_cmp, has, IsCellListOf};
ghost use Rattle.heesch_grid.specs.Geometry.{Adjacent, image};
ghost use Rattle.heesch_grid.specs.Vectors.{IsWithin};
ghost use Rattle.heesch_shape.specs.Walks.{IsShape};
ghost use Rattle.heesch_grid.specs.Polyform.{IsNormalised, IsCanonicalListOf};
ghost use Rattle.heesch_shape.specs.Least.{IsNormalising, IsStep, IsTranslate, IsTurned};
ghost use Rattle.heesch_grid.specs.declared.Cell.{Cell};

use crate::faults::ShapeFault;
use crate::lists::{CELLS_MAX, carried, contains, copied, floor_multiple, least, moved};
use crate::places::{first_among, first_repeated, first_stranger};
use crate::reach::parted;
use arrayvec::ArrayVec;
use heesch_grid::{Cell, Grid, Iso};
use std::cmp::Ordering;
use std::marker::{Model, PhantomData};

/// A polyform of 1 to 32 cells, which stand in cell order.
#[derive(Drop)]
pub struct Shape<G: Grid> {
    cells: ArrayVec<Cell, CELLS_MAX>,
    grid: PhantomData<G>,
}

impl<G: Grid> Model for Shape<G> {
    ghost use Rattle.std.specs.Prelude.{List};
    ghost use Rattle.heesch_grid.specs.declared.Cell.{Cell};
    ghost use Rattle.heesch_shape.specs.Walks.{IsShape};

    ghost Value = { List Cell };

    ghost view = { λ s. s.cells.items };

    ghost invariant = { λ s. IsShape G.geometry s.cells.items };
}

/// Shapes are ordered by their cell lists.
impl<G: Grid> Ord for Shape<G> {
    ghost cmp = { slice_cmp cell_cmp };

    ghost total = { list_total };

    ghost matches_partial_cmp = { λ x y. refl };

    ghost matches_eq = { λ x y. refl };

    fn cmp(&self, other: &Shape<G>) -> Ordering {
        self.cells.cmp(&other.cells)
    }
}

impl<G: Grid> PartialOrd for Shape<G> {
    ghost partial_cmp = { as_partial_cmp (slice_cmp cell_cmp) };

    ghost laws = { partial_order_from_total list_total };

    fn partial_cmp(&self, other: &Shape<G>) -> Option<Ordering> {
        Some(self.cmp(other))
    }
}

impl<G: Grid> PartialEq for Shape<G> {
    ghost eq = { eq_by_cmp (slice_cmp cell_cmp) };

    ghost laws = { list_per };

    fn eq(&self, other: &Shape<G>) -> bool {
        self.cells.cmp(&other.cells).is_eq()
    }
}

impl<G: Grid> Eq for Shape<G> {
    ghost laws = { list_equivalence };
}

/// The multiple of the unit that moves a coordinate to where its unit is the first.
fn step_of<G: Grid>(z: i32) -> i32
    requires low { neg_ℤ (pos 1000000) ≤ℤ z }
    requires high { z ≤ℤ pos 1000000 }
    ensures { IsStep G.geometry.unit z result }
{
    -floor_multiple(z, G::UNIT)
}

/// The pair that moves the cells of a shape to where those of a normalised one stand.
fn normalising<G: Grid>(cells: &[Cell]) -> Cell
    requires { IsShape G.geometry cells.now }
    ensures { IsNormalising G.geometry cells.now result }
{
    let least = least(cells);
    Cell {
        a: step_of::<G>(least.a),
        b: step_of::<G>(least.b),
    }
}

/// The shape of cells in any order. Condition: in order they are a shape's.
fn in_order<G: Grid>(mut cells: ArrayVec<Cell, CELLS_MAX>) -> Shape<G>
    requires { (ys : List Cell) → IsPermutation cells.items ys → IsSorted cell_cmp ys → IsShape G.geometry ys }
    ensures same { IsPermutation cells.items result }
    ensures sorted { IsSorted cell_cmp result }
    ensures shape { IsShape G.geometry result }
{
    cells.sort_unstable();
    Shape {
        cells,
        grid: PhantomData,
    }
}

impl<G: Grid> Shape<G> {
    ghost use Rattle.heesch_shape.specs.Faults.{IsFault, IsFaultless};

    /// The shape of just these cells, which may stand in any order. The coordinates lie within
    /// 100,000 of 0. The refusals come in the order of their numbers, each exactly where none
    /// before it does: `Empty` where there is no cell, `TooMany` where there are more than 32,
    /// `NotACell` with the first place that has no cell of the grid, `Repeated` with the first
    /// place that equals an earlier one, `Apart` with the first place that no path of adjacent
    /// given cells joins to place 0.
    ///
    /// It takes no memory. Repeats cost at most 32 comparisons a cell, and one flood from place 0
    /// finds what is apart.
    pub fn of(cells: &[Cell]) -> Result<Shape<G>, ShapeFault>
        requires { (c : Cell) → has cells.now c ≡ true → IsWithin 100000 c }
        ensures list { IfOk result (λ s. IsCellListOf cells.now s) }
        ensures shape { IfOk result (IsShape G.geometry) }
        ensures faultless { IfOk result (λ _. IsFaultless G.geometry cells.now) }
        ensures fault { IfErr result (IsFault G.geometry cells.now) }
    {
        if cells.is_empty() {
            return Err(ShapeFault::Empty);
        }
        if cells.len() > CELLS_MAX {
            return Err(ShapeFault::TooMany);
        }
        if let Some(at) = first_stranger::<G>(cells) {
            return Err(ShapeFault::NotACell { at });
        }
        if let Some(at) = first_repeated(cells) {
            return Err(ShapeFault::Repeated { at });
        }
        let outside = parted::<G>(cells);
        if let Some(at) = first_among(cells, outside.as_slice()) {
            return Err(ShapeFault::Apart { at });
        }
        Ok(in_order(copied(cells)))
    }

    /// The shape of one cell, whose coordinates lie within 1,000,000 of 0.
    pub fn single(c: Cell) -> Shape<G>
        requires cell { G.geometry.is_cell c ≡ true }
        requires within { IsWithin 1000000 c }
        ensures cells { result ≡ c ∷ [] }
        ensures shape { IsShape G.geometry result }
    {
        let mut cells = ArrayVec::new();
        cells.push(c);
        Shape {
            cells,
            grid: PhantomData,
        }
    }

    /// The cells, in cell order.
    pub fn cells(&self) -> &[Cell]
        ensures cells { result.now ≡ self.now }
        ensures shape { IsShape G.geometry self.now }
    {
        self.cells.as_slice()
    }

    /// Whether c is one of the cells. It compares at most 32 cells.
    pub fn has(&self, c: Cell) -> bool
        ensures { result ≡ has self.now c }
    {
        contains(self.cells.as_slice(), c)
    }

    /// The image under an isometry whose turn is below TURNS, where the image has coordinates
    /// within 1,000,000 of 0. The translation may be as long as its numbers allow.
    ///
    /// It turns each cell once and sorts at most 32.
    pub fn image(&self, by: Iso) -> Shape<G>
        requires turn { by.turn < G.geometry.turns }
        requires within { All (IsWithin 1000000) (image G.geometry by self.now) }
        ensures list { IsCellListOf (image G.geometry by self.now) result }
        ensures shape { IsShape G.geometry result }
    {
        in_order(carried::<G>(self.cells.as_slice(), by))
    }

    /// The shape of at most 31 cells with one more, which is not its own, lies beside one of its
    /// own and has coordinates within 1,000,000 of 0. It sorts at most 32 cells.
    pub fn with(&self, added: Cell) -> Shape<G>
        requires few { length self.now ≤ 31 }
        requires within { IsWithin 1000000 added }
        requires adjacent { (member : Cell) × (has self.now member ≡ true) × Adjacent G.geometry member added }
        requires outside { has self.now added ≡ false }
        ensures list { IsCellListOf (added ∷ self.now) result }
        ensures shape { IsShape G.geometry result }
    {
        let mut cells = copied(self.cells.as_slice());
        cells.push(added);
        in_order(cells)
    }

    /// The normalised translate: the one by a multiple of UNIT for which the least floor(a / UNIT)
    /// and the least floor(b / UNIT) of the cells are 0.
    pub fn normalised(&self) -> Shape<G>
        ensures moved { IsTranslate G.geometry self.now result }
        ensures normal { IsNormalised G.geometry result }
        ensures within { (c : Cell) → has result c ≡ true → IsWithin 200 c }
        ensures shape { IsShape G.geometry result }
    {
        let cells = self.cells.as_slice();
        Shape {
            cells: moved(cells, normalising::<G>(cells)),
            grid: PhantomData,
        }
    }

    /// The normalised image under turn k.
    fn turned(&self, k: u32) -> Shape<G>
        requires turn { k < G.geometry.turns }
        requires within { (c : Cell) → has self.now c ≡ true → IsWithin 200 c }
        ensures turned { IsTurned G.geometry k self.now result }
        ensures shape { IsShape G.geometry result }
    {
        let by = Iso {
            turn: k,
            da: 0,
            db: 0,
        };
        self.image(by).normalised()
    }

    /// The shape of the canonical list: the least, cell by cell, of the cell lists of all
    /// normalised images.
    ///
    /// It takes no memory. It tries each turn once: it turns at most 32 cells, sorts them and
    /// compares the list with the least so far.
    pub fn canonical(&self) -> Shape<G>
        ensures canonical { IsCanonicalListOf G.geometry self.now result }
        ensures shape { IsShape G.geometry result }
    {
        let base = self.normalised();
        let mut best = base.turned(0);
        for k in 1..G::TURNS {
            let other = base.turned(k);
            if other.cmp(&best).is_lt() {
                best = other;
            }
        }
        best
    }
}
