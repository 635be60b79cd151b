//! Periodic tilings of larger domains, by a formula that is satisfiable exactly where there is one.
//!
//! `find_cover` goes by masks (`heesch_exact`). A tile of the least turn stands at (0, 0), where a translation
//! brings it. So each triple is searched once for each turn, over the tiles of this turn and later ones; none is
//! proved complete. A torus of more than 64 cells, and a search whose nodes run out, are left open for `search`,
//! which keeps a log. Masks are made by steps: the cells of a turned shape are reduced once, and its translations found
//! by a table.
//!
//! Residue sets stand in a `BTreeMap` by their cell lists, whose order is their numbering. Isometries are tried by
//! turn, then db, then da, and a set keeps the first. The variables of a cell stand in lists by the cell's number in
//! the window.
#![tactic(auto)]

mod answer;
mod clauses;
mod cover;
mod covering;
mod domains;
mod filling;
mod formula;
mod found;
mod incidence;
mod masks;
mod near_iso;
mod outcome;
mod pairs;
mod places;
mod points;
mod residues;
mod steps;
mod tiles;
mod torus;
mod variables;

pub use answer::{TorusAnswer, search};
pub use cover::{CoverAnswer, find_cover};
pub use covering::covering_lists;
pub use domains::triples_up_to;
pub use formula::torus_formula;
pub use found::Variable;
pub use residues::Residues;
pub use variables::variables_of;
