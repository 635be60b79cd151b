//! Assignments to the variables of clauses, in order, with the clause that each follows from.
//!
//! Propagation is by two watched literals. A clause is guarded where it has a true literal, or two different
//! literals that aren't false. The first `fresh` clauses were read. Each level keeps the number of clauses, from the
//! first on, that were guarded when the next level began. A backjump sets `fresh` to that number, and `propagate`
//! reads the clauses from there on again; so no list of waiting clauses is kept, and None is a fixpoint of all
//! clauses.
//!
//! An entry of a watch list has the clause's index, another literal of the clause, and whether these two are all.
//! Where that literal is true the clause isn't touched. A clause that is read again after a backjump may leave stale
//! or doubled entries, which are dropped when they are met. Watch lists have room from the start for the clauses
//! with their literal among the first two, and an eighth more.
//!
//! The assignments are three arrays: values by literal, levels and reasons by variable, and the literals in order.
//! Contracts see them as one list of steps.
#![tactic(auto)]

mod assigned;
mod entry;
mod pair;
mod propagation;
mod scan;
mod step;
mod trail;
mod truth;
mod watch_list;
mod watches;

pub use step::Step;
pub use trail::Trail;
