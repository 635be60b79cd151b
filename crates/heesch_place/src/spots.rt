//! Spots, places for tiles, and marks of them.
ghost use Rattle.std.specs.Prelude.{◌≡◌, ◌≤◌, ◌<◌, ◌^◌, ◌-◌, ◌*◌, ◌+◌, ℕ, not, filter, Contains, IfOk, length};
ghost use Rattle.std.specs.Prelude.{pos, neg_ℤ, nat_abs, ◌+ℤ◌, ◌≤ℤ◌};
ghost use Rattle.heesch_grid.specs.declared.Cell.{Cell};
ghost use Rattle.heesch_grid.specs.Listing.{ListsExactly};
ghost use Rattle.heesch_grid.specs.Vectors.{IsWithin, minus};
ghost use Rattle.heesch_place.specs.declared.spots.Spot.{Spot};
ghost use Rattle.heesch_place.specs.Found.{FromOne, Joins};
ghost use Rattle.heesch_place.specs.Spots.{AreNumbers, IsMarked, IsSet, cell_place, has_mark, is_near};
ghost use Rattle.heesch_place.specs.Spots.{seen_from, spot_before, spot_place, width};

use crate::lists::add;
use heesch_grid::Cell;
use heesch_grid::moves::difference;
use heesch_io::NoMemory;
use std::alloc::Global;
use std::marker::Model;

/// A place for a tile: its form, by its place among the forms of the shape, and its first cell.
#[derive(Clone, Copy)]
pub(crate) struct Spot {
    pub form: u32,
    pub first: Cell,
}

/// The radius, or the distance of the cell from 0 where that is more.
pub(crate) fn widened(radius: u32, c: Cell) -> u32
    ensures more { radius ≤ result }
    ensures within { IsWithin result c }
    ensures bound { (n : ℕ) → radius ≤ n → IsWithin n c → result ≤ n }
{
    radius.max(c.a.unsigned_abs()).max(c.b.unsigned_abs())
}

/// How far from 0 the first cells of the spots lie.
pub(crate) fn radius_of(spots: &[Spot]) -> u32
    ensures within { (spot : Spot) → Contains spots.now spot → IsWithin result spot.first }
    ensures bound { (n : ℕ) → ((spot : Spot) → Contains spots.now spot → IsWithin n spot.first) → result ≤ n }
{
    let mut radius = 0;
    for spot in spots {
        radius = widened(radius, spot.first);
    }
    radius
}

/// There are fewer marks than this.
const MARKS_MAX: u64 = 0x1_0000_0000;

/// Marks of spots whose first cells lie within a radius of 0, row by row: a cell has a mark for each form.
#[derive(Drop)]
pub(crate) struct SpotMarks {
    radius: u32,
    forms: u32,
    marks: Vec<bool>,
}

impl Model for SpotMarks {
    ghost use Rattle.heesch_place.specs.Spots.{MarkedSpots, AreLaidOut};

    ghost Value = { MarkedSpots };

    ghost view = { λ s. record { radius = s.radius; forms = s.forms; marks = s.marks.items } };

    ghost invariant = { λ s. AreLaidOut s.radius s.forms s.marks.items };
}

/// How far the coordinate lies above that which is so much below 0.
fn above(z: i32, low: u32) -> usize
    requires low { low ≤ 1000000 }
    requires from { neg_ℤ (pos low) ≤ℤ z }
    requires to { z ≤ℤ pos low }
    ensures is { result ≡ nat_abs (z +ℤ pos low) }
    ensures within { result ≤ 2 * low }
{
    (z + low as i32) as usize
}

/// The coordinate that lies so far above the one which is so much below 0.
fn below(place: usize, low: u32) -> i32
    requires low { low ≤ 1000000 }
    requires place { place ≤ 2 * low }
    ensures is { (result +ℤ pos low) ≡ pos place }
{
    place as i32 - low as i32
}

/// Whether both coordinates lie so near 0.
fn is_near(radius: u32, c: Cell) -> bool
    ensures { result ≡ is_near radius c }
{
    c.a.unsigned_abs() <= radius && c.b.unsigned_abs() <= radius
}

/// Sets the marks at these places, which count from `base` on.
fn set_all(marks: &mut [bool], base: usize, offsets: &[u32])
    requires { (offset : ℕ) → Contains offsets.now offset → base + offset < length marks.old }
    ensures { Joins (FromOne (λ offset place. place ≡ base + offset) offsets.now) (IsSet marks.old) (IsSet marks.new) }
{
    for offset in offsets {
        marks[base + *offset as usize] = true;
    }
}

impl SpotMarks {
    /// No spots, where those of so many forms can be added whose first cells lie within the radius. 2^32 marks or
    /// more count as want of memory.
    pub(crate) fn within(alloc: Global, radius: u32, forms: u32) -> Result<SpotMarks, NoMemory>
        requires radius { radius ≤ 1000000 }
        requires forms { forms ≤ 12 }
        ensures radius { IfOk result (λ marks. marks.radius ≡ radius) }
        ensures forms { IfOk result (λ marks. marks.forms ≡ forms) }
        ensures long { IfOk result (λ marks. length marks.marks ≡ width radius * width radius * forms) }
        ensures none { IfOk result (λ marks. (place : ℕ) → IsSet marks.marks place → ⊥) }
    {
        let wide = 2 * u64::from(radius) + 1;
        let long = wide.saturating_mul(wide).saturating_mul(u64::from(forms));
        if long >= MARKS_MAX {
            return Err(NoMemory);
        }
        let marks = vec![in alloc; false; long as usize]?;
        Ok(SpotMarks {
            radius,
            forms,
            marks,
        })
    }

    /// The place of a cell in its rows, if the first of them begins `low` below 0 in both coordinates.
    fn cell_place(&self, low: u32, c: Cell) -> usize
        requires low { low ≤ self.now.radius }
        requires within { IsWithin low c }
        ensures is { result ≡ cell_place (width self.now.radius) low c }
        ensures below { result < width self.now.radius * width self.now.radius }
        ensures short { result < 2 ^ 43 }
    {
        let wide = 2 * self.radius as usize + 1;
        above(c.b, low) * wide + above(c.a, low)
    }

    /// The places of the spots as they lie from another cell than 0, which differ from it by at most `reach`: how far
    /// their marks stand behind that of no form at the cell `reach` below that cell in both coordinates.
    pub(crate) fn offsets(
        &self,
        alloc: Global,
        spots: &[Spot],
        from: Cell,
        reach: u32,
    ) -> Result<Vec<u32>, NoMemory>
        requires reach { reach ≤ self.now.radius }
        requires from { IsWithin 1000000 from }
        requires near { (s : Spot) → Contains spots.now s → IsWithin 1000000 s.first }
        requires forms { (s : Spot) → Contains spots.now s → s.form < self.now.forms }
        requires within { (s : Spot) → Contains spots.now s → IsWithin reach (minus s.first from) }
        ensures { IfOk result (λ offsets. AreNumbers (Contains spots.now)
            (λ s. spot_place (width self.now.radius) reach self.now.forms (seen_from from s)) offsets.items) }
    {
        let mut offsets = Vec::new(alloc);
        for spot in spots {
            let place = self.cell_place(reach, difference(from, spot.first));
            add(
                &mut offsets,
                (place * self.forms as usize + spot.form as usize) as u32,
            )?;
        }
        Ok(offsets)
    }

    /// Adds the spots whose marks stand so far behind that of no form at the cell `reach` below c in both coordinates.
    pub(crate) fn add_at(&mut self, offsets: &[u32], reach: u32, c: Cell)
        requires reach { reach ≤ self.old.radius }
        requires near { IsWithin (self.old.radius - reach) c }
        requires places { (offset : ℕ) → Contains offsets.now offset
            → cell_place (width self.old.radius) (self.old.radius - reach) c * self.old.forms + offset
            < length self.old.marks }
        ensures radius { self.new.radius ≡ self.old.radius }
        ensures forms { self.new.forms ≡ self.old.forms }
        ensures long { length self.new.marks ≡ length self.old.marks }
        ensures added { Joins (FromOne (λ offset place. place
            ≡ cell_place (width self.old.radius) (self.old.radius - reach) c * self.old.forms + offset) offsets.now)
            (IsSet self.old.marks) (IsSet self.new.marks) }
    {
        let base = self.cell_place(self.radius - reach, c) * self.forms as usize;
        set_all(self.marks.as_mut_slice(), base, offsets);
    }

    /// The spot of a place.
    fn spot(&self, place: usize) -> Spot
        requires { place < length self.now.marks }
        ensures form { result.form < self.now.forms }
        ensures within { IsWithin self.now.radius result.first }
        ensures place { spot_place (width self.now.radius) self.now.radius self.now.forms result ≡ place }
    {
        let forms = self.forms as usize;
        let wide = 2 * self.radius as usize + 1;
        let cell = place / forms;
        Spot {
            form: (place % forms) as u32,
            first: Cell {
                a: below(cell % wide, self.radius),
                b: below(cell / wide, self.radius),
            },
        }
    }

    /// Whether the spot, which may lie anywhere, has a mark. It takes a constant time.
    fn has(&self, spot: Spot) -> bool
        requires { spot.form < self.now.forms }
        ensures { result ≡ has_mark self.now spot }
    {
        if !is_near(self.radius, spot.first) {
            return false;
        }
        let place = self.cell_place(self.radius, spot.first);
        self.marks[place * self.forms as usize + spot.form as usize]
    }

    /// The spots that have no mark, in their order.
    pub(crate) fn others(&self, alloc: Global, spots: &[Spot]) -> Result<Vec<Spot>, NoMemory>
        requires { (s : Spot) → Contains spots.now s → s.form < self.now.forms }
        ensures { IfOk result (λ kept. kept.items ≡ filter (λ s. not (has_mark self.now s)) spots.now) }
    {
        let mut kept = Vec::new(alloc);
        for spot in spots {
            if !self.has(*spot) {
                add(&mut kept, *spot)?;
            }
        }
        Ok(kept)
    }

    /// The marked spots, in order.
    pub(crate) fn spots(&self, alloc: Global) -> Result<Vec<Spot>, NoMemory>
        ensures { IfOk result (λ spots. ListsExactly spot_before (IsMarked self.now) spots.items) }
    {
        let mut spots = Vec::new(alloc);
        for (place, marked) in self.marks.iter().enumerate() {
            if *marked {
                add(&mut spots, self.spot(place))?;
            }
        }
        Ok(spots)
    }
}
