//! Entries worked by hand, and what is amiss with them where something is changed.
mod coronas;
mod refutations;
mod tilings;

use heesch_audit::{EntryAnswer, audit, is_near};
use heesch_cert::{Entry, Limits};
use heesch_grid::Grid;
use heesch_made::same;
use std::alloc::Global;
use std::test::Fail;
use std::thread::Threads;

/// The audit of the entry answers this, 0 for valid, else the part; a test fails where it answers otherwise, or where
/// the limits or the entry are out of range.
fn expect<G: Grid, R: Threads + Sync>(
    rt: &R,
    alloc: Global,
    entry: &Entry,
    limits: Limits,
    part: u32,
) -> Result<(), Fail> {
    if !limits.valid() || !is_near(entry) {
        return Err(Fail::new("out of range"));
    }
    let found = match audit::<G, R>(rt, alloc, entry, limits)? {
        EntryAnswer::Valid => 0,
        EntryAnswer::Invalid { part } => part,
    };
    same("part", found, part)
}
