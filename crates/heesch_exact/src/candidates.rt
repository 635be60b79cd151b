//! Lists of candidates: the numbers of sets that may still be chosen.
ghost use Rattle.std.specs.Prelude.{◌≡◌, ◌≤◌, ◌<◌, ◌^◌, ℕ, ◌++◌, length, slice_index, All, drop, map, filter, vec_len};
ghost use Rattle.std.specs.Prelude.{IfOk, OnOk};
ghost use Rattle.std.specs.List.{Contains};
ghost use Rattle.heesch_exact.specs.Covers.{is_within};
ghost use Rattle.heesch_exact.specs.Branches.{AreCandidates, IsPart, is_apart};

use heesch_io::NoMemory;
use std::alloc::Global;

/// The numbers of the sets that have no point but the given ones.
pub(crate) fn within(alloc: Global, masks: &[u64], points: u64) -> Result<Vec<u32>, NoMemory>
    requires { length masks.now < 2 ^ 31 }
    ensures candidates { IfOk result (λ numbers. AreCandidates masks.now points numbers.items) }
    ensures all { IfOk result (λ numbers. (i : ℕ) → i < length masks.now → IsPart (slice_index masks.now i) points
        → Contains numbers.items i) }
    ensures sets { IfOk result (λ numbers. map (λ i. slice_index masks.now i) numbers.items
        ≡ filter (is_within points) masks.now) }
{
    let mut numbers = Vec::new(alloc);
    for (i, mask) in masks.iter().enumerate() {
        if *mask & !points == 0 {
            numbers.push(i as u32)?;
        }
    }
    Ok(numbers)
}

/// Appends those candidates from this place on that have no point of the mask. Each is written behind those that are
/// kept, and stays where it is one of them, so that the loop has no branch.
pub(crate) fn push_apart(
    candidates: &mut Vec<u32>,
    from: usize,
    masks: &[u64],
    mask: u64,
) -> Result<(), NoMemory>
    requires from { from ≤ vec_len candidates.old }
    requires within { All (λ i. i < length masks.now) (drop from candidates.old.items) }
    ensures { OnOk result (candidates.new.items
        ≡ candidates.old.items ++ filter (is_apart masks.now mask) (drop from candidates.old.items)) }
{
    let to = candidates.len();
    candidates.resize(to + (to - from), 0)?;
    let mut top = to;
    for k in from..to {
        let number = candidates[k];
        candidates[top] = number;
        top += usize::from(masks[number as usize] & mask == 0);
    }
    candidates.truncate(top);
    Ok(())
}
