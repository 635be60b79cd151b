//! Exact covers: which of some sets have each of given points exactly once. A set of at most 64 points is a mask.
//!
//! The method is Knuth's for exact covers ("Dancing Links", 2000), over words in place of links: a node covers a point
//! that few candidates have, by each of them in turn, and counts the candidates of all points at once, one bit a
//! point.
//!
//! A contract sees masks as numbers. Which point a node covers is no part of any contract. All candidates with that
//! point meet each other, so a set that was tried need not be dropped by name.
#![tactic(auto)]

mod candidates;
mod counts;
mod search;

ghost use Rattle.std.specs.Prelude.{◌+◌, ◌≤◌, ◌<◌, ◌^◌, length, IfOk, OnOk, IsErr, ◌≡◌};
ghost use Rattle.heesch_exact.specs.Covers.{IsAnswer, partial_covers};

use crate::candidates::within;
use crate::search::{Ending, Search};
use heesch_io::{NoMemory, Seq};
use std::alloc::Global;

/// Whether some of the sets cover the points exactly.
#[derive(Debug, Drop)]
pub enum CoverAnswer {
    /// These do, by their numbers from 0, which strictly rise.
    Cover { chosen: Seq<u32> },
    /// None do.
    None,
    /// The nodes were used up before it could be told.
    Open,
}

/// Which of the sets have each of the points exactly once, and no other point.
///
/// A point is a number below 64, and a mask has it where that bit is set. A node of the search takes one of `nodes`,
/// and counts for each point that is left the candidates that have it, up to three. Where a point has none, the branch
/// ends; else the least point with one candidate is covered next, else the least with two, else the least that is
/// left. So a node costs one pass over its candidates, and one more for each of them that it tries. Each node stands
/// for another partial cover: a choice of the sets that has each of the points at most once, and no other point. So
/// the nodes that are spent are at most the partial covers, and at most 2^n for n sets; `Open` comes only where
/// `nodes` was below that and is used up. The search is at most 64 deep. Memory is taken for the candidates of the
/// nodes on the way alone.
pub fn exact_cover(
    alloc: Global,
    masks: &[u64],
    points: u64,
    nodes: &mut u32,
) -> Result<CoverAnswer, NoMemory>
    requires few { length masks.now < 2 ^ 31 }
    ensures answer { IfOk result (IsAnswer masks.now points nodes.old nodes.new) }
    ensures nodes { nodes.new ≤ nodes.old }
    ensures kept { IsErr result → nodes.new ≡ nodes.old }
    ensures spent { OnOk result (nodes.old ≤ nodes.new + partial_covers masks.now points) }
    ensures few { OnOk result (nodes.old ≤ nodes.new + 2 ^ length masks.now) }
{
    let mut search = Search {
        candidates: within(alloc, masks, points)?,
        chosen: Vec::new(alloc),
        nodes: *nodes,
    };
    let ending = search.cover(masks, points, 0)?;
    *nodes = search.nodes;
    Ok(match ending {
        Ending::Covered => {
            let mut chosen = search.chosen;
            chosen.sort_unstable();
            CoverAnswer::Cover {
                chosen: Seq::from_vec(chosen),
            }
        }
        Ending::Failed => CoverAnswer::None,
        Ending::Open => CoverAnswer::Open,
    })
}
