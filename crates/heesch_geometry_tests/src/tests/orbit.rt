//! Classes of small covers.
use super::made::tiling_of;
use heesch_cert::{Classes, Member};
use heesch_grid::{Cell, Grid, Iamond, Iso, Square};
use heesch_lattice::Triple;
use heesch_made::{cells, isos, same, shape_of};
use heesch_orbit::classes;
use std::alloc::Global;
use std::test::Fail;

/// The classes of the tiles at these places of the shape of these cells.
fn classes_of<G: Grid>(
    alloc: Global,
    cells: &[Cell],
    triple: Triple,
    places: &[Iso],
) -> Result<Classes, Fail> {
    let shape = shape_of::<G>(cells)?;
    let tiling = tiling_of::<G>(alloc, triple, places)?;
    Ok(classes(alloc, &shape, &tiling)?)
}

/// The tiles are in one class, by these symmetries.
fn are_one_class(found: &Classes, symmetries: &[Iso]) -> bool {
    let members = found.members.as_slice();
    found.count == 1
        && members.len() == symmetries.len()
        && members
            .iter()
            .zip(symmetries)
            .all(|(member, by)| *member == Member { class: 1, by: *by })
}

/// The two triangles of a unit are in one class.
#[test]
fn triangles_are_in_one_class(rt: HostRuntime) -> Result<(), Fail> {
    let triple = Triple { p: 1, q: 1, s: 0 };
    let places = isos![0, 0, 0; 3, 0, 0];
    let found = classes_of::<Iamond>(rt.alloc(), &cells![1, 1], triple, &places)?;
    let symmetries = isos![0, 0, 0; 1, 0, -1];
    same("one class", are_one_class(&found, &symmetries), true)
}

/// Tiles whose cells are equal up to lattice vectors need not be translates of each other.
#[test]
fn equal_residues_are_not_enough(rt: HostRuntime) -> Result<(), Fail> {
    let cells = cells![1, 1; 4, 1; 10, 1; 2, 2; 5, 2; 8, 2; 4, 4; 7, 4; 5, 5; 8, 5];
    let places = isos![4, 2, 1; 1, 2, 1; 2, 1, 1];
    let triple = Triple { p: 5, q: 3, s: 3 };
    let found = classes_of::<Iamond>(rt.alloc(), &cells, triple, &places)?;
    same("classes", (found.count, found.members.len()), (3, 3))
}

/// Dominoes in blocks of two, by turns across and up, are in one class by quarter turns that don't
/// carry the lattice into itself.
#[test]
fn woven_dominoes_are_in_one_class(rt: HostRuntime) -> Result<(), Fail> {
    let places = isos![0, 0, 0; 0, 0, 1; 1, 2, 0; 1, 3, 0; 0, 4, 0; 0, 4, 1; 1, 6, 0; 1, 7, 0];
    let triple = Triple { p: 8, q: 2, s: 2 };
    let found = classes_of::<Square>(rt.alloc(), &cells![0, 0; 1, 0], triple, &places)?;
    let symmetries = isos![0, 0, 0; 2, 1, 1; 3, 2, 1; 1, 3, 0; 0, 4, 0; 2, 5, 1; 3, 6, 1; 1, 7, 0];
    same("one class", are_one_class(&found, &symmetries), true)
}
