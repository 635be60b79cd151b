//! The plain tilings of a polyform: by translations, and by translations and half-turns.
ghost use Rattle.std.specs.Prelude.{◌≡◌, ◌<◌, ◌≤◌, ◌+◌, ◌*◌, ◌∷◌, [], ◌↔◌, ℕ, true, false, length, slice_index};
ghost use Rattle.std.specs.Prelude.{IfSome, IfNone};
ghost use Rattle.heesch_grid.specs.declared.Cell.{Cell};
ghost use Rattle.heesch_grid.specs.Cells.{has};
ghost use Rattle.heesch_grid.specs.Lattice.{IsTriple};
ghost use Rattle.heesch_grid.specs.Polyform.{IsPolyform};
ghost use Rattle.heesch_grid.specs.Tiling.{IsPeriodicCover, IsPlain, no_move, half_turned};
ghost use Rattle.heesch_grid.specs.Vectors.{IsWithin};
ghost use Rattle.heesch_lattice.specs.Reduction.{IsSmallTriple};
ghost use Rattle.heesch_tiling.specs.Counting.{spot, tile_residues, window_size, IsInRange, AreCounts};
ghost use Rattle.heesch_tiling.specs.Search.{IsTurnedShift, IsFirstShift, IsAreaOf, NoAreaOf, IsFirstByTranslation};
ghost use Rattle.heesch_tiling.specs.Search.{NoTilingByTranslation, NoTilingByHalfTurn};
ghost use Rattle.heesch_tiling.specs.PlainAnswer.{IsHalfTurnAnswer, answered};

use crate::counts::{is_full, mark_tile};
use crate::found::Plain;
use crate::window::{spot, window_size};
use heesch_grid::{Cell, Grid, Iso, Sizes};
use heesch_lattice::{Triple, triples};
use heesch_shape::Shape;

/// The most pairs of the window of a triple of at most 64 units.
const WINDOW_MAX: usize = 2304;

/// The isometry that moves nothing.
const NO_MOVE: Iso = Iso {
    turn: 0,
    da: 0,
    db: 0,
};

/// Sets each mark to none.
fn clear<G: Grid>(marks: &mut [u16], triple: Triple)
    requires { length marks.old ≡ window_size G.geometry triple }
    ensures { AreCounts G.geometry triple [] marks.new }
{
    marks.fill(0);
}

/// Whether the cells alone are a cover. Which marks stand is of no account.
fn is_plain_cover<G: Grid>(marks: &mut [u16; WINDOW_MAX], cells: &[Cell], triple: Triple) -> bool
    requires form { IsPolyform G.geometry cells.now }
    requires near { (c : Cell) → has cells.now c ≡ true → IsWithin 100000 c }
    requires small { triple.p * triple.q ≤ 64 }
    ensures { (result ≡ true) ↔ IsPeriodicCover G.geometry cells.now triple (no_move ∷ []) }
{
    let marks = &mut marks[..window_size::<G>(triple)];
    clear::<G>(marks, triple);
    mark_tile::<G>(marks, cells, triple, NO_MOVE) && is_full::<G>(marks, triple)
}

/// The half-turn, followed by a translation by UNIT times v.
fn half_turned<G: Grid>(v: Cell) -> Iso
    requires { IsWithin 100000 v }
    ensures is { result ≡ half_turned G.geometry v.a v.b }
    ensures range { IsInRange G.geometry result }
{
    Iso {
        turn: G::HALF_TURN,
        da: v.a,
        db: v.b,
    }
}

/// Whether the cells and their image under the half-turn, moved by v, are a cover, where `base` has
/// the marks of the cells.
fn is_turned_cover<G: Grid>(
    base: &[u16],
    marks: &mut [u16],
    cells: &[Cell],
    triple: Triple,
    v: Cell,
) -> bool
    requires triple { IsTriple triple }
    requires form { IsPolyform G.geometry cells.now }
    requires near { (c : Cell) → has cells.now c ≡ true → IsWithin 100000 c }
    requires base { AreCounts G.geometry triple (tile_residues G.geometry cells.now triple no_move) base.now }
    requires few { length base.now ≤ 1000000 }
    requires same { length marks.old ≡ length base.now }
    requires shift { IsWithin 100000 v }
    ensures same { length marks.new ≡ length base.now }
    ensures covers { (result ≡ true)
        ↔ IsPeriodicCover G.geometry cells.now triple (no_move ∷ half_turned G.geometry v.a v.b ∷ []) }
{
    marks.copy_from_slice(base);
    mark_tile::<G>(marks, cells, triple, half_turned::<G>(v)) && is_full::<G>(marks, triple)
}

/// How many shifts a triple has.
fn shift_count(triple: Triple) -> u32
    ensures { result ≡ triple.p * triple.q }
{
    triple.p * triple.q
}

/// The k-th shift of a triple, by b and then by a.
fn shift_at(triple: Triple, k: u32) -> Cell
    requires { k ≤ 1000000 }
    ensures is { result ≡ spot triple.p k }
    ensures within { IsWithin 1000000 result }
{
    spot(triple.p, k)
}

/// The first shift by which the cells and their image under the half-turn are a cover, where `base`
/// has the marks of the cells.
fn first_marked_shift<G: Grid>(
    base: &[u16],
    marks: &mut [u16],
    cells: &[Cell],
    triple: Triple,
) -> Option<Cell>
    requires triple { IsSmallTriple triple }
    requires form { IsPolyform G.geometry cells.now }
    requires near { (c : Cell) → has cells.now c ≡ true → IsWithin 100000 c }
    requires small { triple.p * triple.q ≤ 64 }
    requires base { AreCounts G.geometry triple (tile_residues G.geometry cells.now triple no_move) base.now }
    requires few { length base.now ≤ 1000000 }
    requires same { length marks.old ≡ length base.now }
    ensures found { IfSome result (IsFirstShift G.geometry cells.now triple) }
    ensures none { IfNone result ((v : Cell) → ¬ IsTurnedShift G.geometry cells.now triple v) }
{
    for k in 0..shift_count(triple) {
        let v = shift_at(triple, k);
        if is_turned_cover::<G>(base, marks, cells, triple, v) {
            return Some(v);
        }
    }
    None
}

/// The first shift by which the cells and their image under the half-turn are a cover. Which marks stand is of no
/// account.
fn first_shift<G: Grid>(
    base: &mut [u16; WINDOW_MAX],
    marks: &mut [u16; WINDOW_MAX],
    cells: &[Cell],
    triple: Triple,
) -> Option<Cell>
    requires form { IsPolyform G.geometry cells.now }
    requires near { (c : Cell) → has cells.now c ≡ true → IsWithin 100000 c }
    requires small { triple.p * triple.q ≤ 64 }
    ensures found { IfSome result (IsFirstShift G.geometry cells.now triple) }
    ensures none { IfNone result ((v : Cell) → ¬ IsTurnedShift G.geometry cells.now triple v) }
{
    let count = window_size::<G>(triple);
    let base = &mut base[..count];
    clear::<G>(base, triple);
    if !mark_tile::<G>(base, cells, triple, NO_MOVE) {
        return None;
    }
    first_marked_shift::<G>(base, &mut marks[..count], cells, triple)
}

/// How many units so many cells have, where that is a whole number. Condition: there is a cell. It takes no memory.
pub fn area_of<G: Grid>(count: u32) -> Option<u32>
    requires some { 1 ≤ count }
    ensures found { IfSome result (IsAreaOf G.geometry count) }
    ensures none { IfNone result (NoAreaOf G.geometry count) }
{
    if count % G::PER != 0 {
        return None;
    }
    Some(count / G::PER)
}

/// The first triple by which the shape alone is a cover.
fn by_translation<G: Grid>(shape: &Shape<G>) -> Option<Triple>
    requires { (c : Cell) → has shape.now c ≡ true → IsWithin 100000 c }
    ensures found { IfSome result (IsFirstByTranslation G.geometry shape.now) }
    ensures none { IfNone result (NoTilingByTranslation G.geometry shape.now) }
{
    let cells = shape.cells();
    let area = area_of::<G>(cells.len() as u32)?;
    let mut marks = [0; WINDOW_MAX];
    for triple in triples(area) {
        if is_plain_cover::<G>(&mut marks, cells, triple) {
            return Some(triple);
        }
    }
    None
}

/// The first triple, and its first shift, by which the shape and its image under the half-turn are a
/// cover.
fn by_half_turn<G: Grid>(shape: &Shape<G>) -> Option<Plain>
    requires { (c : Cell) → has shape.now c ≡ true → IsWithin 100000 c }
    ensures found { IfSome result (IsHalfTurnAnswer G.geometry shape.now) }
    ensures none { IfNone result (NoTilingByHalfTurn G.geometry shape.now) }
{
    let cells = shape.cells();
    let area = area_of::<G>(2 * cells.len() as u32)?;
    let mut base = [0; WINDOW_MAX];
    let mut marks = [0; WINDOW_MAX];
    for triple in triples(area) {
        if let Some(v) = first_shift::<G>(&mut base, &mut marks, cells, triple) {
            return Some(Plain::HalfTurn {
                triple,
                da: v.a,
                db: v.b,
            });
        }
    }
    None
}

/// The first plain tiling of a shape of n cells: by the first triple of n cells by which the shape
/// alone is a cover; else by the first triple of 2n cells, and its first (da, db), by db and then
/// by da, by which the shape and its image under the half-turn, moved by (da, db), are a cover;
/// else none. Condition: the cells lie within 100,000 of 0. Cost: for each triple of n and of 2n
/// cells, and for each shift of the latter, a reduction for each cell up to the first that is
/// covered twice. It takes no memory.
pub fn plain<G: Grid>(shape: &Shape<G>) -> Option<Plain>
    requires near { (c : Cell) → has shape.now c ≡ true → IsWithin 100000 c }
    ensures { IsPlain G.geometry shape.now (answered result) }
{
    if let Some(triple) = by_translation(shape) {
        return Some(Plain::Translation { triple });
    }
    by_half_turn(shape)
}
