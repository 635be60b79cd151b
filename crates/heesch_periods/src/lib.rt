//! The search for a cover of a triple without its torus formula: advice of a solver over a table, judged at once.
//!
//! The table has the variables and the reduced cells of the formula's source, and knows no clause. `heesch_lazy`
//! searches over it, and at the end its log becomes lines with hints: each reason is the number of a clause, which the
//! source knows. All that is advice. Then checkers say over the source whether the log refutes the formula, or is spent
//! and leaves it open. Where they say no, and where a model was found, the search of `heesch_torus` answers, which
//! writes the formula down.
#![tactic(auto)]

mod answer;
mod judge;
mod log;
mod numbers;
mod table;

pub use answer::search;
