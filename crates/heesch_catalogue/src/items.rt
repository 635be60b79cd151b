//! What is made of shapes, each by itself, and the texts of what was made.
ghost use Rattle.std.specs.Prelude.{◌≡◌, ◌≤◌, ℕ, IfOk, List, OnOk, length, slice_range};
ghost use Rattle.std.specs.List.{AllZip};
ghost use Rattle.heesch_grid.specs.declared.Cell.{Cell as Place};
ghost use Rattle.heesch_grid.specs.Geometry.{Geometry};
ghost use Rattle.heesch_catalogue.specs.Rounds.{AreTexts, Extends};

use heesch_grid::Grid;
use heesch_io::NoMemory;
use heesch_pool::{Answer, Crew, Gate, Job};
use heesch_shape::Shape;
use std::alloc::Global;
use std::thread::Threads;

/// What is written of shapes, each by itself: an item is made of a shape, and then the item's text.
pub trait ShapeText {
    /// What is made of a shape.
    type Item: Send + Sync + Drop;

    // Which items are of a shape of a grid.
    ghost is_of: { Self → Geometry → List Place → Self.Item → Type 0 };

    // Which texts are of an item.
    ghost is_text: { Self → Self.Item → List ℕ → Type 0 };

    /// An item of the shape, or want of memory.
    fn item<G: Grid>(&self, alloc: Global, shape: &Shape<G>) -> Result<Self::Item, NoMemory>
        ensures { IfOk result (is_of self.now G.geometry shape.now) };

    /// Appends a text of the item, or memory was refused.
    fn append(&self, item: &Self::Item, text: &mut Vec<u8>) -> Result<(), NoMemory>
        ensures { OnOk result (Extends (is_text self.now item.now) text.old.items text.new.items) };
}

/// The job whose item is that of one of the shapes.
#[derive(Drop)]
struct ItemOf<'a, G: Grid, R> {
    alloc: Global,
    shapes: &'a [Shape<G>],
    texts: &'a R,
}

impl<'a, G: Grid, R: ShapeText> Answer<R::Item> for ItemOf<'a, G, R> {
    ghost use Rattle.std.specs.Prelude.{⊤, IfOk, [], length, nat_lt, slice_index_or};

    ghost accepts = { λ s number. nat_lt number (length s.shapes.now) };

    ghost gives = { λ s number item. IfOk item
        (R.is_of s.texts.now G.geometry (slice_index_or s.shapes.now number [])) };

    ghost ready = { λ _. ⊤ };

    fn answer(&self, number: u32) -> Result<R::Item, NoMemory> {
        self.texts.item(self.alloc, &self.shapes[number as usize])
    }
}

/// The items of those shapes that stand from the place `from` to before `until`, in their order. One ticket of the
/// pool is one shape, the gate is told its place, and what a shape took beside its item is freed as soon as that is
/// made.
///
/// Errors: `NoMemory` alone.
pub fn items_between<G: Grid + Send + Sync, R: ShapeText + Sync, T: Threads + Sync, H: Gate + Sync>(
    crew: &Crew<'_, T, H>,
    texts: &R,
    shapes: &[Shape<G>],
    from: u32,
    until: u32,
) -> Result<Vec<R::Item>, NoMemory>
    requires span { (from ≤ until) × (until ≤ length shapes.now) }
    ensures { IfOk result
        (λ items. AllZip (R.is_of texts.now G.geometry) (slice_range shapes.now from until) items.items) }
{
    let job = Job::new(
        ItemOf {
            alloc: crew.alloc,
            shapes,
            texts,
        },
        until,
    );
    crew.run_span(&job, from, until)
}

/// Appends the texts of the items, in their order.
pub fn append_items<R: ShapeText>(
    texts: &R,
    items: &[R::Item],
    text: &mut Vec<u8>,
) -> Result<(), NoMemory>
    ensures { OnOk result (Extends (AreTexts (R.is_text texts.now) items.now) text.old.items text.new.items) }
{
    for item in items {
        texts.append(item, text)?;
    }
    Ok(())
}
