//! What is written of searches, read where it stands: the logs of proofs over a corona formula, and layers of coronas.
//! Its callers are checkers, so it shares no code with any search.
//!
//! A proof is read as a log without a copy: the clauses of its cuts alone are made. A cut is admitted where it is
//! lawful, of a level that the caller allows, and its hole lies near 0: `heesch_cuts::lawful` needs it near.
#![tactic(auto)]

mod coronas;
mod logs;
mod near;
mod proof_log;
mod spelling;

pub use coronas::are_coronas;
pub use logs::{admitted_log, has_no_cut, is_refuted, learnt_log};
pub use near::{are_near_cells, are_near_isos, are_near_layers, is_near_iso, is_near_proof};
pub use proof_log::ProofLog;
pub use spelling::are_spelled;
