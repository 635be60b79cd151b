//! The search: a branch has points that are left, and the candidates for them.
ghost use Rattle.std.specs.Prelude.{◌≡◌, ◌+◌, ◌≤◌, ◌<◌, drop, vec_len, IfOk, OnOk};
ghost use Rattle.std.specs.Int.{bit_at};
ghost use Rattle.heesch_exact.specs.Branches.{AreCandidates, IsEnding, ways};

use crate::candidates::push_apart;
use crate::counts::Counts;
use heesch_io::NoMemory;

/// How the search of a branch ended.
#[derive(Clone, Copy)]
pub(crate) enum Ending {
    /// Its points are covered.
    Covered,
    /// Its candidates don't cover its points.
    Failed,
    /// The nodes were used up.
    Open,
}

/// The state of a search.
#[derive(Drop)]
pub(crate) struct Search {
    /// The candidates of each node on the way, behind those of the node above.
    pub candidates: Vec<u32>,
    /// The sets chosen on the way.
    pub chosen: Vec<u32>,
    /// How many nodes may still be made.
    pub nodes: u32,
}

impl Search {
    /// Covers the points that are left by candidates from this place on. It calls itself at most as deep as points are
    /// left, since each set that is chosen has one of them.
    #[cycle(search)]
    pub(crate) fn cover(
        &mut self,
        masks: &[u64],
        left: u64,
        from: usize,
    ) -> Result<Ending, NoMemory>
        requires from { from ≤ vec_len self.old.candidates }
        requires candidates { AreCandidates masks.now left (drop from self.old.candidates.items) }
        ensures candidates { OnOk result (self.new.candidates.items ≡ self.old.candidates.items) }
        ensures ending { IfOk result (IsEnding masks.now left (drop from self.old.candidates.items)
            self.old.chosen.items self.new.chosen.items self.old.nodes self.new.nodes) }
        ensures nodes { self.new.nodes ≤ self.old.nodes }
        ensures spent { OnOk result (self.old.nodes
            ≤ self.new.nodes + ways masks.now (drop from self.old.candidates.items) left) }
    {
        if left == 0 {
            return Ok(Ending::Covered);
        }
        if self.nodes == 0 {
            return Ok(Ending::Open);
        }
        self.nodes -= 1;
        match Counts::of(masks, &self.candidates[from..]).rarest(left) {
            Some(point) => self.cover_point(masks, left, from, point),
            None => Ok(Ending::Failed),
        }
    }

    /// The same, where the set that has this point is chosen next.
    #[cycle(search)]
    fn cover_point(
        &mut self,
        masks: &[u64],
        left: u64,
        from: usize,
        point: u32,
    ) -> Result<Ending, NoMemory>
        requires from { from ≤ vec_len self.old.candidates }
        requires candidates { AreCandidates masks.now left (drop from self.old.candidates.items) }
        requires below { point < 64 }
        requires point { bit_at left point ≡ 1 }
        ensures candidates { OnOk result (self.new.candidates.items ≡ self.old.candidates.items) }
        ensures ending { IfOk result (IsEnding masks.now left (drop from self.old.candidates.items)
            self.old.chosen.items self.new.chosen.items (self.old.nodes + 1) self.new.nodes) }
        ensures nodes { self.new.nodes ≤ self.old.nodes }
        ensures spent { OnOk result (self.old.nodes + 1
            ≤ self.new.nodes + ways masks.now (drop from self.old.candidates.items) left) }
    {
        let to = self.candidates.len();
        for k in from..to {
            let number = self.candidates[k];
            let mask = masks[number as usize];
            if (mask >> point) & 1 == 0 {
                continue;
            }
            push_apart(&mut self.candidates, from, masks, mask)?;
            self.chosen.push(number)?;
            let ending = self.cover(masks, left & !mask, to)?;
            self.candidates.truncate(to);
            let Ending::Failed = ending else {
                return Ok(ending);
            };
            self.chosen.pop();
        }
        Ok(Ending::Failed)
    }
}
