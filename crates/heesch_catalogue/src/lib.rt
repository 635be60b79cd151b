//! Texts of shapes that are written as they are made, each shape by itself and by several workers: catalogues, and
//! what else is written by the same rounds.
//!
//! Shapes are written by rounds of 256: the header in one `put`, the entries of each round in one, the end in one.
//! So memory is that of the free list and of one round. All such texts have one writer (`write_texts`), over the
//! trait `ShapeText`: what is computed of a shape, and what text that has. After an error the sink has a prefix of
//! what entries of some first shapes decide (`begun_text`). A job takes each shape's canonical list anew, since a
//! job's test can't say that a shape is canonical.
#![tactic(auto)]

mod catalogues;
mod entries;
mod items;
mod rounds;
mod sizes;

pub use catalogues::{write_catalogue, write_catalogue_of_size};
pub use entries::{EntryText, canonical_of};
pub use items::{ShapeText, items_between};
pub use rounds::{ROUND, write_texts};
pub use sizes::write_texts_of_size;
