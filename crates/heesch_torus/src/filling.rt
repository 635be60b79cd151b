//! Exact covers by masks that share no point with a first one.
ghost use Rattle.std.specs.Prelude.{◌≡◌, ◌==◌, ◌<◌, ◌≤◌, ◌+◌, ◌^◌, ℕ, map, filter, length, slice_index, All, IfOk, OnOk};
ghost use Rattle.std.specs.Int.{bit_at};
ghost use Rattle.std.specs.Int.Bits.{bit_and};
ghost use Rattle.heesch_torus.specs.Beside.{AreBeside, CountsChoices, IsFilling};

use heesch_exact::{CoverAnswer, exact_cover};
use heesch_io::{NoMemory, Seq};
use std::alloc::Global;

/// Masks that fill what a first one leaves, as far as they were searched.
#[derive(Drop)]
pub(crate) enum Filling {
    Filled { masks: Seq<u64> },
    None,
    Open,
}

/// The masks that share no bit with the first.
fn apart_from(alloc: Global, masks: &[u64], first: u64) -> Result<Vec<u64>, NoMemory>
    ensures { IfOk result (λ v. v.items ≡ filter (λ m. bit_and m first == 0) masks.now) }
{
    let mut apart = Vec::with_capacity(alloc, masks.len())?;
    for mask in masks {
        if *mask & first == 0 {
            apart.push(*mask)?;
        }
    }
    Ok(apart)
}

/// The masks that share no bit with the first, each once.
fn beside(alloc: Global, masks: &[u64], first: u64) -> Result<Vec<u64>, NoMemory>
    ensures { IfOk result (λ v. AreBeside masks.now first v.items) }
{
    let mut apart = apart_from(alloc, masks, first)?;
    apart.sort_unstable();
    apart.dedup();
    Ok(apart)
}

/// The masks of these numbers.
fn numbered(alloc: Global, masks: &[u64], chosen: &[u32]) -> Result<Seq<u64>, NoMemory>
    requires { All (λ i. i < length masks.now) chosen.now }
    ensures { IfOk result (λ found. found ≡ map (λ i. slice_index masks.now i) chosen.now) }
{
    let mut found = Vec::with_capacity(alloc, chosen.len())?;
    for i in chosen {
        found.push(masks[*i as usize])?;
    }
    Ok(Seq::from_vec(found))
}

/// Searches for masks that fill what the first leaves of the full word.
pub(crate) fn fill_beside(
    alloc: Global,
    masks: &[u64],
    first: u64,
    full: u64,
    nodes: &mut u32,
) -> Result<Filling, NoMemory>
    requires few { length masks.now < 2 ^ 31 }
    requires within { (k : ℕ) → bit_at first k ≤ bit_at full k }
    ensures answer { IfOk result (IsFilling masks.now first full nodes.old) }
    ensures nodes { nodes.new ≤ nodes.old }
    ensures spent { OnOk result ((count : ℕ) × CountsChoices masks.now first full count
        × (nodes.old ≤ nodes.new + count)) }
{
    let beside = beside(alloc, masks, first)?;
    let answer = exact_cover(alloc, beside.as_slice(), full & !first, nodes)?;
    match answer {
        CoverAnswer::Cover { chosen } => {
            let masks = numbered(alloc, beside.as_slice(), chosen.as_slice())?;
            Ok(Filling::Filled { masks })
        }
        CoverAnswer::None => Ok(Filling::None),
        CoverAnswer::Open => Ok(Filling::Open),
    }
}
