//! The entries of shapes with the answers on their outer numbers, each shape by itself, and their texts.
ghost use Rattle.heesch_cert.specs.Limits.{AreLimits};

use crate::{OuterAnswer, outer, write_answer};
use heesch_catalogue::{ShapeText, canonical_of};
use heesch_cert::{Entry, Limits};
use heesch_grid::Grid;
use heesch_io::NoMemory;
use heesch_shape::Shape;
use heesch_text::write_entry;
use heesch_verdict::classify;
use std::alloc::Global;

/// An entry, and what is known of the outer number of its shape.
#[derive(Drop)]
pub struct OuterEntry {
    pub entry: Entry,
    pub answer: OuterAnswer,
}

/// What an outer text has of each shape: its entry under the limits, and the answer on its outer number.
#[derive(Clone, Copy)]
pub struct OuterText {
    pub limits: Limits,
    pub ghost valid: { AreLimits limits },
}

impl ShapeText for OuterText {
    type Item = OuterEntry;

    ghost use Rattle.heesch_outer.specs.Answers.{IsOuterEntryOf, IsRecord};

    ghost is_of = { λ s g shape e. IsOuterEntryOf g s.limits shape e };

    ghost is_text = { λ _ e text. IsRecord e text };

    fn item<G: Grid>(&self, alloc: Global, shape: &Shape<G>) -> Result<OuterEntry, NoMemory> {
        let canonical = canonical_of(shape);
        let entry = classify(alloc, &canonical, self.limits)?;
        let answer = outer::<G>(alloc, &entry, self.limits)?;
        Ok(OuterEntry { entry, answer })
    }

    fn append(&self, answered: &OuterEntry, text: &mut Vec<u8>) -> Result<(), NoMemory> {
        write_entry(&answered.entry, text)?;
        write_answer(&answered.entry, &answered.answer, text)
    }
}
