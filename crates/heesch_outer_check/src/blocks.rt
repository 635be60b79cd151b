//! The blocks of records in bytes.
ghost use Rattle.std.specs.Prelude.{◌≡◌, ◌≤◌, ◌<◌, false, codes, drop, length, take, IfOk};
ghost use Rattle.heesch_reader.specs.Faults.{begins, begins_next};
ghost use Rattle.heesch_outer_check.specs.Rounds.{AreBlocks, EndsAt};

use heesch_io::{NoMemory, Seq};
use std::alloc::Global;

/// Whether the bytes begin a shape.
pub(crate) fn begins_shape(bytes: &[u8]) -> bool
    ensures { result ≡ begins bytes.now (codes "shape ") }
{
    bytes.starts_with(b"shape ")
}

/// Whether the bytes begin a shape or the last line.
fn begins_block(bytes: &[u8]) -> bool
    ensures { result ≡ begins_next bytes.now }
{
    bytes.starts_with(b"shape ") || bytes.starts_with(b"end ")
}

/// The bytes from a place on.
pub(crate) fn from_place(bytes: &[u8], at: usize) -> &[u8]
    requires { at ≤ length bytes.now }
    ensures { result.now ≡ drop at bytes.now }
{
    &bytes[at..]
}

/// The bytes up to a place.
pub(crate) fn up_to_place(bytes: &[u8], at: usize) -> &[u8]
    requires { at ≤ length bytes.now }
    ensures { result.now ≡ take at bytes.now }
{
    &bytes[..at]
}

/// The length of the block that stands first. The cost is linear in it.
#[tactic(auto, using(crate::proofs::Cutting::front, crate::proofs::Cutting::ends_last))]
fn block_length(bytes: &[u8]) -> usize
    ensures block { EndsAt bytes.now result }
    ensures most { result ≤ length bytes.now }
{
    for (i, byte) in bytes.iter().enumerate() {
        if *byte == b'\n' && begins_block(from_place(bytes, i + 1)) {
            return i + 1;
        }
    }
    bytes.len()
}

/// The blocks that stand first in the bytes, and how many bytes they have.
#[derive(Drop)]
pub(crate) struct Round {
    pub blocks: Seq<Seq<u8>>,
    pub length: usize,
}

/// The next blocks of the bytes, each of which begins a shape: `most` of them, or fewer where the rest behind them
/// begins none.
#[tactic(auto, using(crate::proofs::Cutting::no_blocks, crate::proofs::Cutting::next_block))]
pub(crate) fn next_round(alloc: Global, bytes: &[u8], most: u32) -> Result<Round, NoMemory>
    ensures within { IfOk result (λ r. r.length ≤ length bytes.now) }
    ensures blocks { IfOk result (λ r. AreBlocks bytes.now r.blocks (drop r.length bytes.now)) }
    ensures most { IfOk result (λ r. length r.blocks ≤ most) }
    ensures all { IfOk result
        (λ r. length r.blocks < most → begins (drop r.length bytes.now) (codes "shape ") ≡ false) }
{
    let mut blocks = Seq::new(alloc);
    let mut length = 0;
    for _count in 0..most {
        let rest = from_place(bytes, length);
        if !begins_shape(rest) {
            return Ok(Round { blocks, length });
        }
        let block = block_length(rest);
        let copy = Seq::from_slice(alloc, up_to_place(rest, block))?;
        blocks.push(copy)?;
        length += block;
    }
    Ok(Round { blocks, length })
}
