//! Who answers the numbers of a job.
ghost use Rattle.std.specs.Prelude.{◌≡◌, ◌≤◌};

use std::alloc::{AllocError, Global};

/// Workers over a runtime: how many they are, where their memory comes from, and the gate that each number passes
/// before it is answered.
pub struct Crew<'a, R, H> {
    pub rt: &'a R,
    pub alloc: Global,
    pub workers: u32,
    pub gate: &'a H,
    ghost some: { 1 ≤ workers },
    ghost few: { workers ≤ 64 },
}

impl<'a, R, H> Crew<'a, R, H> {
    /// 1 to 64 workers.
    pub fn new(rt: &'a R, alloc: Global, workers: u32, gate: &'a H) -> Crew<'a, R, H>
        requires { (1 ≤ workers) × (workers ≤ 64) }
        ensures { result.workers ≡ workers }
    {
        Crew {
            rt,
            alloc,
            workers,
            gate,
        }
    }
}

impl<'a, R, H> Copy for Crew<'a, R, H> {}

impl<'a, R, H> Clone for Crew<'a, R, H> {
    fn clone(&self) -> Result<Self, AllocError> {
        Ok(*self)
    }
}
