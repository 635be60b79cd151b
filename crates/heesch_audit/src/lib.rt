//! The check of entries, each part by the checker of its own crate and none by the searches that made it.
//!
//! `spell_coronas` and `ends_coronas` ask of layers and of a proof what the parts 5 to 8 ask of an entry's.
#![tactic(auto)]

mod audited;
mod auditing;
mod corona_ends;
mod corona_formula;
mod coronas;
mod cover;
mod fits;
mod form;
mod formula;
pub mod laws;
mod logs;
mod near;
mod proof_end;
mod shaped;
mod spelling;
mod split;
mod triples;
mod walls;

pub use auditing::{EntryAnswer, audit};
pub use corona_ends::ends_coronas;
pub use near::is_near;
pub use proof_end::ProofEnd;
pub use spelling::spell_coronas;
pub use split::{most_portions, portion_holds};
