//! What a verdict is sought of.

use heesch_cert::Limits;
use heesch_grid::Grid;
use heesch_shape::Shape;

/// A shape whose verdict is sought, and the limits of the searches for it.
#[derive(Drop)]
pub struct Subject<'a, G: Grid> {
    pub shape: &'a Shape<G>,
    pub limits: Limits,
}
