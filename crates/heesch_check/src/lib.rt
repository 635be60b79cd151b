//! Whether bytes are a valid catalogue.
//!
//! `IsValid` and the invalid parts are said of bytes: the block of an entry, and the rest behind it. An input has
//! one answer, whatever its length: an invalid part counts where the bytes that are read decide it, and elsewhere an
//! input of more than 2^40 bytes is too long. At 2^40 bytes an entry is judged where it is whole in them. A line
//! that begins `end ` before all entries is an invalid part: the entry's where it breaks one off, else the end's.
//!
//! Entries are judged by rounds of 128, or of 64 by one worker. A ticket is a portion of an entry (`PortionOf`):
//! all entries of a round are split into as many portions as the most triples of one of them, or as one more than
//! the most levels that were sought for one, at most 64. A portion has the proofs of every so many-th triple, and
//! the first has all else. Each portion that has a triple asks first whether the triples are those that the limits
//! ask for, so a hostile catalogue can't have formulas computed for others.
//!
//! The tickets come turn by turn, and each turn has a portion of each entry. With each level that was sought the first
//! portion takes several times as long. So the more levels, the sooner it comes (`portion_at`), lest a long one begins
//! last and all other workers wait for it.
//!
//! With two workers or more the items of the next round are read while a round is audited, and those of the round
//! before are freed (`round_from`). The caller's thread does both, since a source need not be `Send`, and then audits
//! as one of the workers. So there are never more threads than workers.
#![tactic(auto)]

mod ahead;
mod answers;
mod checking;
mod handle;
mod judging;
pub mod laws;
mod reading;
mod rounds;

pub use answers::{Checked, write_checked};
pub use checking::check;
pub use handle::SharedHandle;
pub use judging::GIVEN_MAX;
