//! Cuts of a corona formula: clauses that forbid a hole which chosen placements enclose.
//!
//! A cut is a level, a hole and a border, and is lawful where the shape and the placements of the
//! border, all of that level or below, enclose the hole without meeting it. Its clause says that
//! one of the border isn't chosen, or that a placement of the level or below fills some of the hole.
//!
//! A cut for a model is of the least level whose patch has a hole. Its hole is the joined part with the first cell
//! of the greatest hole. Its border has, for each cell beside that hole outside S, the least true variable of at
//! most that level that covers it. One hole a model is enough, and fewer literals make a stronger clause.
#![tactic(auto)]

mod border;
mod cells;
mod checking;
mod clauses;
mod cutting;
mod marks;
mod parts;
mod patches;

pub use checking::lawful;
pub use clauses::clause_of;
pub use cutting::cut_for;
