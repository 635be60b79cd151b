//! Formulas of small shapes, counted by another program, and the answers of both searches on two of them.
ghost use Rattle.std.specs.Prelude.{◌≡◌, true, length};
ghost use Rattle.heesch_torus.specs.Domain.{HasDomain};

use heesch_cnf::Log;
use heesch_grid::{Cell, Grid, Hex, Iamond, Square};
use heesch_lattice::Triple;
use heesch_made::{cells, isos, same, shape_of};
use heesch_shape::Shape;
use heesch_torus::{CoverAnswer, TorusAnswer, find_cover, search, torus_formula};
use std::alloc::Global;
use std::test::Fail;

/// Whether the triple is one of a domain that is searched.
fn is_searched<G: Grid>(shape: &Shape<G>, triple: Triple) -> bool
    ensures { result ≡ true → HasDomain G.geometry (length shape.now) triple }
{
    let area = G::PER * (triple.p * triple.q);
    let count = shape.cells().len() as u32;
    for tiles in 1..13 {
        if area == count * tiles {
            return true;
        }
    }
    false
}

/// How many variables, clauses and literals the torus formula has.
fn counts<G: Grid>(
    alloc: Global,
    cells: &[Cell],
    triple: Triple,
) -> Result<(u32, usize, u64), Fail> {
    let shape = shape_of::<G>(cells)?;
    if !is_searched(&shape, triple) {
        return Err(Fail::new("not searched"));
    }
    let formula = torus_formula(alloc, &shape, triple)?;
    let literals = formula.to_formula(alloc)?.literals();
    Ok((formula.vars(), formula.len(), literals))
}

const BENT: [Cell; 3] = cells![0, 0; 1, 0; 0, 1];

#[test]
fn formulas_of_small_shapes(rt: HostRuntime) -> Result<(), Fail> {
    let alloc = rt.alloc();
    let squares = counts::<Square>(alloc, &BENT, Triple { p: 3, q: 2, s: 1 })?;
    same("squares", squares, (18, 150, 342))?;
    let worm = cells![0, 0; 1, 0; 2, 0; 0, 1];
    let hexagons = counts::<Hex>(alloc, &worm, Triple { p: 4, q: 2, s: 1 })?;
    same("hexagons", hexagons, (48, 1112, 2400))?;
    let trapezium = cells![1, 1; 4, 1; 2, 2];
    let triangles = counts::<Iamond>(alloc, &trapezium, Triple { p: 3, q: 2, s: 0 })?;
    same("triangles", triangles, (36, 330, 744))
}

/// The answer by a formula for one turn.
fn by_formula(alloc: Global, cells: &[Cell], triple: Triple) -> Result<TorusAnswer, Fail> {
    let shape = shape_of::<Square>(cells)?;
    if !is_searched(&shape, triple) {
        return Err(Fail::new("not searched"));
    }
    Ok(search(alloc, &shape, triple, 1)?)
}

/// The answer by masks for 100 nodes.
fn by_masks(alloc: Global, cells: &[Cell], triple: Triple) -> Result<CoverAnswer, Fail> {
    let shape = shape_of::<Square>(cells)?;
    if !is_searched(&shape, triple) {
        return Err(Fail::new("not searched"));
    }
    Ok(find_cover(alloc, &shape, triple, 100)?)
}

#[test]
fn three_squares_round_a_corner_have_no_cover(rt: HostRuntime) -> Result<(), Fail> {
    let triple = Triple { p: 1, q: 3, s: 0 };
    let answer = by_masks(rt.alloc(), &BENT, triple)?;
    same("masks", matches!(answer, CoverAnswer::None), true)?;
    let TorusAnswer::None { log } = by_formula(rt.alloc(), &BENT, triple)? else {
        return Err(Fail::new("not refuted"));
    };
    let Log { lines, last } = log;
    same("lines", lines.len(), 0)?;
    same(
        "last",
        last.map(|hints| hints.into_vec()),
        Some([1].to_vec(rt.alloc())?),
    )
}

#[test]
fn one_square_tiles_by_two_places(rt: HostRuntime) -> Result<(), Fail> {
    let triple = Triple { p: 2, q: 1, s: 0 };
    let places = isos![0, 0, 0; 0, 1, 0];
    let TorusAnswer::Tiles { tiling } = by_formula(rt.alloc(), &cells![0, 0], triple)? else {
        return Err(Fail::new("no cover"));
    };
    same("triple", tiling.triple, triple)?;
    same("places", tiling.places.as_slice(), places.as_slice())?;
    let CoverAnswer::Tiles { tiling } = by_masks(rt.alloc(), &cells![0, 0], triple)? else {
        return Err(Fail::new("no cover by masks"));
    };
    same(
        "places by masks",
        tiling.places.as_slice(),
        places.as_slice(),
    )
}
