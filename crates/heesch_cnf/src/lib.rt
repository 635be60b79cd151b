//! Clauses, formulas and logs of a refutation, with the definition of when a line of a log holds.
//!
//! `FlatFormula` stands beside `Formula`: one array of literals packed into 32 bits, and the place where each
//! clause ends. The encoder and the torus formula write it, and the solver reads it. `Formula` stays what callers
//! may pass. A `ClauseSource` need have no clause standing anywhere: the log checker reads clauses by it.
#![tactic(auto)]

mod flat;
mod form;
mod formula;
mod literal;
mod log;
mod meaning;
mod numbered;
mod packed;
mod source;
mod values;
mod version;

pub use flat::FlatFormula;
pub use form::is_clause;
pub use formula::Formula;
pub use literal::{Hints, Lit, Lits};
pub use log::{Line, Log};
pub use meaning::{learn_follows, learned_unsatisfiable, refuted_unsatisfiable, shown_follows};
pub use numbered::{clause_in, clause_numbered};
pub use packed::PackedLit;
pub use source::{ClauseSource, NewnessSource, left_in_packed};
pub use values::{Left, left_in, value_of};
pub use version::Version;
