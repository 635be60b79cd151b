//! The classes of the tiles of a cover.
ghost use Rattle.std.specs.Prelude.{◌≡◌, ◌≤◌, ◌<◌, ◌++◌, ◌∷◌, ◌+◌, [], List, true, length, All, IfOk, IfSome, IfNone};
ghost use Rattle.std.specs.Prelude.{OnOk};
ghost use Rattle.heesch_grid.specs.declared.Cell.{Cell};
ghost use Rattle.heesch_grid.specs.declared.isometries.Iso.{Iso};
ghost use Rattle.heesch_grid.specs.Cells.{has};
ghost use Rattle.heesch_grid.specs.Lattice.{IsTriple};
ghost use Rattle.heesch_grid.specs.Symmetry.{AreClasses, TakesExactly};
ghost use Rattle.heesch_grid.specs.Tiling.{no_move};
ghost use Rattle.heesch_grid.specs.Vectors.{IsWithin};
ghost use Rattle.heesch_tiling.specs.Counting.{IsInRange};
ghost use Rattle.heesch_orbit.specs.Found.{AreFound, IsMember, IsNew};

use crate::symmetries::least_taking;
use crate::turns::Turned;
use heesch_cert::{Classes, Member, Tiling};
use heesch_grid::{Grid, Iso};
use heesch_io::{NoMemory, Seq};
use heesch_lattice::Triple;
use heesch_shape::Shape;
use std::alloc::Global;

/// The isometry that moves nothing.
const NO_MOVE: Iso = Iso {
    turn: 0,
    da: 0,
    db: 0,
};

/// The class of a tile and its symmetry, from the first representative that a symmetry takes exactly
/// to it, if there is one.
fn known_member<G: Grid>(
    turned: &Turned<G>,
    triple: Triple,
    places: &[Iso],
    representatives: &[Iso],
    to: Iso,
) -> Option<Member>
    requires triple { IsTriple triple }
    requires range { All (IsInRange G.geometry) places.now }
    requires representatives { All (IsInRange G.geometry) representatives.now }
    requires few { length representatives.now ≤ 12 }
    requires to { IsInRange G.geometry to }
    ensures some { IfSome result (IsMember G.geometry turned.now triple places.now representatives.now to) }
    ensures none { IfNone result (IsNew G.geometry turned.now triple places.now representatives.now to) }
{
    for (i, from) in representatives.iter().enumerate() {
        if let Some(by) = least_taking(turned, triple, places, *from, to) {
            return Some(Member {
                class: i as u32 + 1,
                by,
            });
        }
    }
    None
}

/// The member of a tile that none of the classes so far has.
fn new_member(class: u32) -> Member
    ensures { result ≡ record { class = class; by = no_move } }
{
    Member { class, by: NO_MOVE }
}

/// Puts a tile into the first class that has it, or else into a new class.
fn add_tile<G: Grid>(
    turned: &Turned<G>,
    triple: Triple,
    places: &[Iso],
    representatives: &mut Vec<Iso>,
    members: &mut Seq<Member>,
    to: Iso,
) -> Result<(), NoMemory>
    requires triple { IsTriple triple }
    requires range { All (IsInRange G.geometry) places.now }
    requires representatives { All (IsInRange G.geometry) representatives.old.items }
    requires few { length representatives.old.items < 12 }
    requires to { IsInRange G.geometry to }
    ensures range { OnOk result (All (IsInRange G.geometry) representatives.new.items) }
    ensures few { OnOk result (length representatives.new.items ≤ length representatives.old.items + 1) }
    ensures found { OnOk result
        ((tiles : List Iso) → AreFound G.geometry turned.now triple places.now tiles representatives.old.items
        members.old → AreFound G.geometry turned.now triple places.now
        (tiles ++ to ∷ []) representatives.new.items members.new) }
{
    let known = known_member(turned, triple, places, representatives.as_slice(), to);
    if let Some(member) = known {
        return members.push(member);
    }
    representatives.push(to)?;
    members.push(new_member(representatives.len() as u32))
}

/// The classes of tiles, which are sorted in one by one.
fn classes_of<G: Grid>(
    alloc: Global,
    turned: &Turned<G>,
    triple: Triple,
    places: &[Iso],
) -> Result<Classes, NoMemory>
    requires triple { IsTriple triple }
    requires few { length places.now ≤ 12 }
    requires range { All (IsInRange G.geometry) places.now }
    ensures { IfOk result (λ c. AreClasses G.geometry turned.now triple places.now c.count c.members) }
{
    let mut representatives = Vec::new(alloc);
    let mut members = Seq::new(alloc);
    for to in places {
        add_tile(
            turned,
            triple,
            places,
            &mut representatives,
            &mut members,
            *to,
        )?;
    }
    Ok(Classes {
        count: representatives.len() as u32,
        members,
    })
}

/// The classes of the tiles of a cover, numbered from 1 by their first tiles: the number of the
/// classes, and for each tile its class with the symmetry of least turn that takes the first tile of
/// the class exactly to it. Condition: the cells of the shape and the translations lie within
/// 100,000 of 0, each turn is one of the grid's, and there are at most 12 places. Want of memory
/// alone gives another answer.
///
/// A symmetry is an isometry that carries the translates of the tiles to translates of the tiles
/// (after Myers). Cost: each turn is tried for each tile and each class before it; of one turn at
/// most one isometry fits, and it is tested on each pair of tiles, three times.
pub fn classes<G: Grid>(
    alloc: Global,
    shape: &Shape<G>,
    tiling: &Tiling,
) -> Result<Classes, NoMemory>
    requires few { length tiling.now.places ≤ 12 }
    requires near { (c : Cell) → has shape.now c ≡ true → IsWithin 100000 c }
    requires range { All (IsInRange G.geometry) tiling.now.places }
    ensures { IfOk result
        (λ c. AreClasses G.geometry shape.now tiling.now.triple tiling.now.places c.count c.members) }
{
    // Once a triple is read, its invariant is known.
    let _p = tiling.triple.p;
    let turned = Turned::new(alloc, shape)?;
    classes_of(alloc, &turned, tiling.triple, tiling.places.as_slice())
}
