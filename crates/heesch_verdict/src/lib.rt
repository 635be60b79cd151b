//! The verdict of a shape, with what shows it.
//!
//! Covers are sought without logs before coronas. A triple that this leaves open is settled by the search with a log
//! only where a cover is found behind it, or where the verdict turns out undecided. Of triples whose lattices a turn
//! carries to each other one is searched, and another is left out only where the earlier one was searched whole and
//! has no cover. So the first cover in the order of triples is the same as without that.
//!
//! The evidence of an entry is made of two ends: how the search for hole-free coronas ended, and how the search
//! behind it did. The verdict is read off them. No contract says that the search without logs is of use: one that
//! leaves all open gives true entries at a higher cost. Where a search was spent, the clause says that some spent
//! log exists, since an entry that tiles writes none.
#![tactic(auto)]

mod alike;
mod bare;
mod classifying;
mod covers;
mod ends;
mod judged;
mod settled;
mod steps;
mod subject;
mod tiled;
mod walled;

pub use classifying::classify;
