//! Tiles that meet.
ghost use Rattle.std.specs.Prelude.{◌≡◌, ◌<◌, ◌≤◌, [], ◌∷◌, length, MatchOption};
ghost use Rattle.heesch_corona.specs.Searches.{lesser_of, IsNextMeeting, IsFirstMeeting, HaveNoMeeting};
ghost use Rattle.heesch_grid.specs.Cells.{set_of};

use heesch_grid::Cell;
use heesch_index::CellIndex;

/// The lesser of two numbers, or the one that is there.
fn lesser(first: Option<u32>, second: Option<u32>) -> Option<u32>
    ensures { result ≡ lesser_of first second }
{
    match (first, second) {
        (Some(m), Some(n)) => Some(m.min(n)),
        (Some(m), None) => Some(m),
        (None, n) => n,
    }
}

/// The least later tile that has this cell.
fn next_with(index: &CellIndex, c: Cell, number: u32) -> Option<u32>
    ensures { IsNextMeeting index.now (c ∷ []) number result }
{
    for n in index.covering(c) {
        if *n > number {
            return Some(*n);
        }
    }
    None
}

/// The least later tile that meets this one. Where no earlier one does, the tile itself is the first at each of its
/// cells, so it takes two steps a cell.
fn next_meeting(index: &CellIndex, number: u32) -> Option<u32>
    requires low { 1 ≤ number }
    requires high { number ≤ length index.now }
    ensures { IsNextMeeting index.now (set_of index.now number) number result }
{
    let mut least = None;
    for c in index.cells(number) {
        least = lesser(least, next_with(index, *c, number));
    }
    least
}

/// The least pair of tiles that meet.
pub(crate) fn first_meeting(index: &CellIndex) -> Option<(u32, u32)>
    ensures { MatchOption result (HaveNoMeeting index.now) (IsFirstMeeting index.now) }
{
    for at in 0..index.len() {
        if let Some(other) = next_meeting(index, at + 1) {
            return Some((at + 1, other));
        }
    }
    None
}
