//! Limits and polyforms that several modules try.
use heesch_cert::{Limits, Proof};
use heesch_grid::{Cell, Iso};
use heesch_io::Seq;
use heesch_made::{LIMITS, cells, isos, same};
use std::alloc::{AllocError, Global};
use std::test::Fail;

/// The limits under which nothing but one corona is sought.
pub(crate) const LEAST: Limits = Limits {
    levels: 1,
    domain: 1,
    ..LIMITS
};

/// The heptomino with a hole.
pub(crate) const HOLED: [Cell; 7] = cells![0, 0; 1, 0; 2, 0; 0, 1; 2, 1; 0, 2; 1, 2];

/// A heptomino that can be surrounded with holes alone.
pub(crate) const CROSSING: [Cell; 7] = cells![1, 0; 0, 1; 1, 1; 2, 1; 3, 1; 1, 2; 1, 3];

/// The twelve triangles that touch the one at (1, 1).
pub(crate) const AROUND: [Iso; 12] = isos![
    0, 0, -1; 0, 1, -1; 1, 0, -1; 1, 1, -1; 1, 2, -1; 0, -1, 0;
    0, 1, 0; 1, 0, 0; 1, 1, 0; 0, -1, 1; 0, 0, 1; 1, 0, 1
];

/// A copy of the items.
pub(crate) fn seq<T: Copy>(alloc: Global, items: &[T]) -> Result<Seq<T>, AllocError> {
    Ok(Seq::from_vec(Vec::from_slice(alloc, items)?))
}

/// The proof has no step, and this hint alone in its last line; a test fails where it hasn't.
pub(crate) fn is_by(proof: &Proof, hint: u32) -> Result<(), Fail> {
    same("steps", proof.steps.len(), 0)?;
    let Some(last) = &proof.last else {
        return Err(Fail::new("no last line"));
    };
    same("hints", last.as_slice(), [hint].as_slice())
}
