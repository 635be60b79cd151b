//! Sums of counts, and where a number falls among them.
ghost use Rattle.std.specs.Prelude.{◌≡◌, ◌<◌, ◌≤◌, ◌^◌, ◌++◌, ◌∷◌, [], take, drop, length, sum, All, OnOk, OnErr};
ghost use Rattle.heesch_io.specs.Pieces.{AreEnds};
ghost use Rattle.heesch_numbers.specs.Counts.{FallsIn};

use heesch_io::NoMemory;
use std::alloc::Global;
use std::marker::Model;

/// How many things each of some parts has, by the sums up to each. Contracts see the counts.
#[derive(Drop)]
pub struct Prefix {
    ends: Vec<u32>,
    total: u32,
}

impl Model for Prefix {
    ghost use Rattle.std.specs.Prelude.{ℕ, List};
    ghost use Rattle.heesch_io.specs.Pieces.{AreEnds};
    ghost use Rattle.heesch_numbers.specs.Counts.{gaps};

    ghost Value = { List ℕ };

    ghost view = { λ p. gaps 0 p.ends.items };

    ghost invariant = { λ p. AreEnds 0 p.ends.items p.total };
}

/// How many of the ends lie at or before the place. A binary search.
fn count_to(ends: &[u32], size: u32, place: u32) -> usize
    requires { AreEnds 0 ends.now size }
    ensures bound { result ≤ length ends.now }
    ensures below { All (λ m. m ≤ place) (take result ends.now) }
    ensures above { All (λ m. place < m) (drop result ends.now) }
{
    ends.partition_point(|m| *m <= place)
}

impl Prefix {
    /// Without a part. It takes no memory.
    pub fn new(alloc: Global) -> Prefix
        ensures { result ≡ [] }
    {
        Prefix {
            ends: Vec::new(alloc),
            total: 0,
        }
    }

    /// How many things there are. A constant time.
    pub fn total(&self) -> u32
        ensures { result ≡ sum self.now }
    {
        self.total
    }

    /// A part of so many things stands last, or nothing has changed. 2^32 things or more count as want of memory. A
    /// constant time, as an average over many calls.
    pub fn push(&mut self, count: u32) -> Result<(), NoMemory>
        ensures ok { OnOk result (self.new ≡ self.old ++ count ∷ []) }
        ensures err { OnErr result (self.new ≡ self.old) }
    {
        let Some(total) = self.total.checked_add(count) else {
            return Err(NoMemory);
        };
        self.ends.push(total)?;
        self.total = total;
        Ok(())
    }

    /// How many things come before the part, or before the end. A constant time.
    pub fn start(&self, part: usize) -> u32
        requires { part ≤ length self.now }
        ensures { result ≡ sum (take part self.now) }
    {
        if part == 0 { 0 } else { self.ends[part - 1] }
    }

    /// The part that the thing at this place falls in, and its place there, all from 0. A binary search.
    pub fn place(&self, place: u32) -> (usize, u32)
        requires { place < sum self.now }
        ensures { FallsIn self.now place result.0 result.1 }
    {
        let part = count_to(&self.ends, self.total, place);
        (part, place - self.start(part))
    }
}
