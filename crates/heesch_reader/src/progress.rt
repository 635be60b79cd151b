//! How far a catalogue has come, from its first line on.
ghost use Rattle.std.specs.Prelude.{◌≡◌};
ghost use Rattle.heesch_reader.specs.declared.progress.Progress.TheVariants as stages;
ghost use Rattle.heesch_reader.specs.Progress.{next, may_end, between};
ghost use Rattle.heesch_reader.specs.Faults.{begins_next, part_after, part_behind, part_of};

use crate::item::Part;
use heesch_grammar::{Place, Spot};
use heesch_text::Line;

/// How far a catalogue has come.
#[derive(Clone, Copy, Debug, PartialEq, Eq)]
pub enum Progress {
    /// Nothing was read.
    Start,
    /// Behind the header of a brief or a full text.
    Behind { brief: bool, spot: Spot },
}

impl Progress {
    /// Where a line leads. None exactly where it may not stand here. It takes no memory.
    pub fn next(self, line: &Line) -> Option<Progress>
        ensures { result ≡ next self line.now }
    {
        match self {
            Progress::Start => first(line),
            Progress::Behind { brief, spot } => spot
                .step(brief, line)
                .map(|spot| Progress::Behind { brief, spot }),
        }
    }

    /// Whether an entry may end here, or none has begun.
    pub fn may_end(self) -> bool
        ensures { result ≡ may_end self }
    {
        match self {
            Progress::Start => false,
            Progress::Behind { brief: _, spot } => spot.place.is_whole(),
        }
    }

    /// The same number of entries, with none begun.
    pub fn between(self) -> Progress
        ensures { result ≡ between self }
    {
        match self {
            Progress::Start => Progress::Start,
            Progress::Behind { brief, spot } => {
                let spot = Spot {
                    shapes: spot.shapes,
                    place: Place::Between,
                };
                Progress::Behind { brief, spot }
            }
        }
    }

    /// The part at fault where a line of these bytes, with its newline where it has one, may not stand here.
    pub fn part_of(self, line: &[u8]) -> Part
        ensures { result ≡ part_of self line.now }
    {
        match self {
            Progress::Start => Part::Header,
            Progress::Behind { brief: _, spot } => part_behind(spot, line),
        }
    }
}

/// Where the first line leads, if it is a header.
fn first(line: &Line) -> Option<Progress>
    ensures { result ≡ next stages.Start line.now }
{
    let Line::Header { header } = line else {
        return None;
    };
    let spot = Spot {
        shapes: 0,
        place: Place::Between,
    };
    Some(Progress::Behind {
        brief: header.brief,
        spot,
    })
}

/// The part at fault behind a header.
fn part_behind(spot: Spot, line: &[u8]) -> Part
    ensures { result ≡ part_behind spot.place spot.shapes line.now }
{
    if spot.place == Place::Ended {
        return Part::End;
    }
    if line.starts_with(b"shape ") || !spot.place.is_whole() {
        return Part::Entry;
    }
    part_after(spot.shapes, line)
}

/// The part at fault after so many whole entries, where the line doesn't begin a shape.
fn part_after(shapes: u32, line: &[u8]) -> Part
    ensures { result ≡ part_after shapes line.now }
{
    if shapes == 0 || line.is_empty() || line.starts_with(b"end ") {
        return Part::End;
    }
    Part::Entry
}

/// How the line at hand begins, the one whose newline wasn't read.
#[derive(Clone, Copy, Debug, PartialEq, Eq)]
pub enum AtHand {
    /// Not with `end ` and the space.
    Other,
    /// With that, and no line of an entry is at hand.
    Next,
    /// With that, behind lines of an entry.
    Inside,
}

/// Whether the bytes show that the next line is that of a shape, or the last line.
pub fn begins_next(line: &[u8]) -> bool
    ensures { result ≡ begins_next line.now }
{
    line.starts_with(b"shape ") || line.starts_with(b"end ")
}
