//! The entries of shapes, each classified by itself, and their texts.
ghost use Rattle.heesch_cert.specs.Limits.{AreLimits};
ghost use Rattle.heesch_grid.specs.Polyform.{IsCanonicalListOf};

use crate::items::ShapeText;
use heesch_cert::{Entry, Limits};
use heesch_grid::Grid;
use heesch_io::NoMemory;
use heesch_shape::Shape;
use heesch_text::{write_brief, write_entry};
use heesch_verdict::classify;
use std::alloc::Global;

/// What a catalogue has of each shape: its entry under the limits, brief or with its evidence.
#[derive(Clone, Copy)]
pub struct EntryText {
    pub brief: bool,
    pub limits: Limits,
    pub ghost valid: { AreLimits limits },
}

impl ShapeText for EntryText {
    type Item = Entry;

    ghost use Rattle.heesch_catalogue.specs.Entries.{IsEntryOf, IsEntryText};

    ghost is_of = { λ s g shape entry. IsEntryOf g s.limits shape entry };

    ghost is_text = { λ s entry text. IsEntryText s.brief entry text };

    fn item<G: Grid>(&self, alloc: Global, shape: &Shape<G>) -> Result<Entry, NoMemory> {
        let canonical = canonical_of(shape);
        classify(alloc, &canonical, self.limits)
    }

    fn append(&self, entry: &Entry, text: &mut Vec<u8>) -> Result<(), NoMemory> {
        if self.brief {
            write_brief(entry, text)
        } else {
            write_entry(entry, text)
        }
    }
}

/// The canonical form of a shape, which is its own canonical form. Its cost is that of `Shape::canonical`.
pub fn canonical_of<G: Grid>(shape: &Shape<G>) -> Shape<G>
    ensures canonical { IsCanonicalListOf G.geometry shape.now result }
    ensures itself { IsCanonicalListOf G.geometry result result }
{
    let _cells = shape.cells();
    shape.canonical()
}
