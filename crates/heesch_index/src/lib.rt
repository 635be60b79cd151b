//! Sets of cells by cell: which of some sets, by number, have a cell, and whether a set has it.
//!
//! A `CellIndex` grows by a set at a time, and its cells may lie anywhere: it hashes them. Its sets stand flat beside
//! the map, since a contract sees only what the fields give; so it answers a set's cells by number too. An `add` that
//! fails takes its numbers out again.
//!
//! A `CellTable` is made at once of sets that lie near one another: it has a place for each cell of the box around
//! them, and a look-up is by arithmetic. `CellMarks` are one set, by a mark for each cell of a box. `Corners` are of
//! the least box that has some cells.
#![tactic(auto)]

mod cell_box;
mod entries;
mod index;
mod marks;
mod parts;
mod sets;
mod table;

pub use cell_box::Corners;
pub use index::CellIndex;
pub use marks::CellMarks;
pub use sets::CellSets;
pub use table::CellTable;
