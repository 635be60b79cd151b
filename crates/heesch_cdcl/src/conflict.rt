//! A conflict: a clause of the trail that is false.
use heesch_trail::Trail;
use std::marker::Model;

/// The number of a clause whose literals are all false, where below the present level every clause has a true literal
/// or two open ones.
#[derive(Drop)]
pub struct Conflict<'a> {
    pub trail: &'a Trail,
    pub number: u32,
}

impl<'a> Model for Conflict<'a> {
    ghost use Rattle.heesch_cdcl.specs.Conflicts.{Clash, IsClash};

    ghost Value = { Clash };

    ghost view = { λ c. record { trail = c.trail.now; number = c.number } };

    ghost invariant = { λ c. IsClash c.trail.now c.number };
}
