//! The search for coronas at one level.
//!
//! What a search asks of a model is one number, the level up to which holes are forbidden: 0 allows holes, j forbids
//! them, and j - 1 allows them in the outermost corona alone. So `level`, `wall` and the search for outer coronas
//! are one loop. The search knows only that the universe's variables are among the formula's; which formula it is
//! stands where the answer is.
//!
//! Each cut is made against a model, whose layers are coronas with holes. So the wall's own search tells whether
//! these exist at its level: a refutation with a cut gives the coronas of its first cut, and one without a cut says
//! that there are none. No level is searched twice. The cuts stand in a list beside the solver; at the end each
//! given line of the log takes the next.
#![tactic(auto)]

mod answer;
mod asked;
mod ended;
mod layers;
mod searching;
mod steps;

pub use answer::{LevelAnswer, WallAnswer, level, level_up_to, wall};
pub use layers::layers_of;
