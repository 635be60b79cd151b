//! The search for coronas at one level without their formula: a universe as a cover table, and reasons as clause
//! numbers.
//!
//! The search of heesch_lazy is over a table of cells and wants, and knows no formula. Here the table is made from the
//! placements of a universe, each model is asked for a cut where holes are forbidden, and at the end the log becomes a
//! proof over the second corona formula: each reason is the number of a clause, and two tiles that meet are told apart
//! by an owner variable of a cell that both have. No clause of the formula is made.
//!
//! What comes out is advice. Contracts say how long lists are, and which cuts are lawful; whether a proof refutes, and
//! whether values are a model, is for the checkers to say.
#![tactic(auto)]

mod contacts;
mod draft;
mod frame;
mod hints;
mod numbers;
mod search;
mod steps;
mod table;
mod values;

pub use search::{Advice, search_level};
pub use table::table_of;
