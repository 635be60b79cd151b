//! What an audit looks at.

use heesch_cert::{Entry, Limits};
use heesch_grid::Grid;
use heesch_shape::Shape;
use std::alloc::Global;

/// An entry that is audited under the limits, the shape of its cells, and where the audit takes its memory.
#[derive(Drop)]
pub(crate) struct Audited<'a, G: Grid> {
    pub alloc: Global,
    pub shape: &'a Shape<G>,
    pub entry: &'a Entry,
    pub limits: Limits,
}
