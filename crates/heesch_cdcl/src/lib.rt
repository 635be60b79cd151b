//! A solver that learns clauses and keeps a log of them.
//!
//! Decisions take the most constrained cell. Of the formula's clauses with at most one negative literal, whose guard
//! is true and which have no true literal, that is the first with the fewest open literals; its last open literal
//! becomes true. Where there is none, the first open variable becomes false. Contracts see only that an open
//! variable is taken, and none where none is open, so no answer rests on the choice.
//!
//! Learnt clauses are shortened: a literal whose variable follows from the others is left out, and its reason is a
//! hint. Which literals are left out has no contract. That a learnt line holds and is new is proved for every
//! choice. A variable marked in a conflict is listed, and the next conflict begins by taking the marks back by that
//! list. The solver keeps one copy of its formula, the trail's. Newness is asked of spent logs alone; a log that
//! refutes may have more lines than the budget has turns.
#![tactic(auto)]

mod analysis;
mod assembly;
mod conflict;
mod covers;
mod decisions;
mod empty;
mod filled;
mod laws;
mod learning;
mod marks;
mod search;
mod solver;
mod values;
mod verdicts;
mod workspace;

pub use laws::{clause_is_new, given_is_new, lines_are_few, no_final_line, twelve_variables};
pub use solver::{Found, Solver};
pub use values::makes_false;
