//! Counts of Heesch numbers.
ghost use Rattle.std.specs.Prelude.{◌≡◌, ℕ, ◌+◌, ◌≤◌, ◌^◌, ◌++◌, ◌∷◌, [], List, length, take, All, OnOk, OnErr};
ghost use Rattle.std.specs.Map.{values_of};
ghost use Rattle.heesch_cert.specs.declared.verdict.Verdict.{Verdict};
ghost use Rattle.heesch_table.specs.Counts.{heesch_of};
ghost use Rattle.heesch_table.specs.Steps.{RaisesCount};
ghost use Rattle.heesch_table.specs.Texts.{heesch_text};

use crate::fields::append_count;
use heesch_cert::Verdict;
use heesch_io::NoMemory;
use heesch_text::fields::append_labelled;
use std::alloc::Global;
use std::collections::BTreeMap;
use std::marker::Model;

/// How many shapes have each Heesch number that occurs. Contracts see the numbers with their
/// counts, rising.
#[derive(Drop)]
pub struct HeeschCounts {
    counts: BTreeMap<u32, u64>,
}

impl Model for HeeschCounts {
    ghost use Rattle.std.specs.Prelude.{List, ℕ};

    ghost Value = { List (ℕ × ℕ) };

    ghost view = { λ h. h.counts.entries };
}

impl HeeschCounts {
    /// No counts. It takes no memory.
    pub fn new(alloc: Global) -> HeeschCounts
        ensures { result ≡ [] }
    {
        HeeschCounts {
            counts: BTreeMap::new(alloc),
        }
    }

    /// One more verdict, or nothing changes.
    pub fn add(&mut self, verdict: &Verdict) -> Result<(), NoMemory>
        requires { All (λ count. count ≤ 2 ^ 32) (values_of self.old) }
        ensures ok { (verdicts : List Verdict) → self.old ≡ heesch_of verdicts
            → OnOk result (self.new ≡ heesch_of (verdicts ++ verdict.now ∷ [])) }
        ensures bound { (n : ℕ) → All (λ count. count ≤ n) (values_of self.old)
            → All (λ count. count ≤ n + 1) (values_of self.new) }
        ensures err { OnErr result (self.new ≡ self.old) }
    {
        match verdict {
            Verdict::Heesch { h, .. } => self.raise(*h),
            _ => Ok(()),
        }
    }

    /// One more shape with this Heesch number, or nothing changes.
    fn raise(&mut self, number: u32) -> Result<(), NoMemory>
        requires { All (λ count. count ≤ 2 ^ 32) (values_of self.old) }
        ensures ok { OnOk result (RaisesCount number self.old self.new) }
        ensures err { OnErr result (self.new ≡ self.old) }
    {
        let count = self.counts.get(&number).copied().unwrap_or(0);
        self.counts.insert(number, count + 1)?;
        Ok(())
    }

    /// The lines of the counts stand last.
    pub fn append(&self, out: &mut Vec<u8>) -> Result<(), NoMemory>
        ensures ok { OnOk result (out.new.items ≡ out.old.items ++ heesch_text self.now) }
        ensures kept { take (length out.old.items) out.new.items ≡ out.old.items }
    {
        for (number, count) in &self.counts {
            append_labelled(b"heesch ", *number, out)?;
            append_count(b" ", *count, out)?;
        }
        Ok(())
    }
}
