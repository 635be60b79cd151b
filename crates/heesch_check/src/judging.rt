//! The judgement of the items of a catalogue.
ghost use Rattle.std.specs.Prelude.{◌≡◌, ◌+◌, ◌-◌, ◌↔◌, ◌<◌, ◌≤◌, ◌^◌, IfOk, IsTrue, Some, length, take, vec_len};
ghost use Rattle.std.specs.List.{AllByRecursion};
ghost use Rattle.heesch_cert.specs.declared.header.Header.{Header as CatalogueHeader};
ghost use Rattle.heesch_cert.specs.Limits.{AreLimits};
ghost use Rattle.heesch_grid.specs.Names.{geometry_of};
ghost use Rattle.heesch_check.specs.Catalogues.{IsInPlace, AreAll};
ghost use Rattle.heesch_check.specs.Judging.{AreAuditsBehind, ArePlaced, HasShapes, IsFit, Judges, JudgesEnd};
ghost use Rattle.heesch_check.specs.Reading.{AnswersEarly, AnswersLong, IsAnswerOf, JudgesRound};

use crate::answers::Checked;
use crate::handle::SharedHandle;
use crate::reading::Reading;
use crate::rounds::{audits, leading};
use heesch_audit::{EntryAnswer, audit};
use heesch_cert::Header;
use heesch_grid::{Cell, Grid};
use heesch_io::{NoMemory, Seq};
use heesch_pool::{Crew, Gate};
use heesch_reader::{AtHand, Item, Part};
use heesch_shape::Shape;
use std::alloc::Global;
use std::thread::Threads;

/// How many shapes may be given.
pub const GIVEN_MAX: u32 = 10_000;

/// The answer where this part is at fault behind so many good entries.
pub(crate) fn fault_behind(entries: u32, part: Part) -> Checked
    ensures { (header : CatalogueHeader) → IsAnswerOf header entries (Reading.Fault part) (Some result) }
{
    match part {
        Part::Header => Checked::InvalidHeader,
        Part::Entry => Checked::InvalidEntry {
            number: u64::from(entries) + 1,
        },
        Part::End => Checked::InvalidEnd,
    }
}

/// A catalogue as far as it was judged: its header, the free list where it is of a size, and how many entries were
/// good.
#[derive(Drop)]
pub(crate) struct Judge<G: Grid> {
    pub header: Header,
    pub shapes: Option<Seq<Shape<G>>>,
    pub entries: u32,
}

impl<G: Grid + Send + Sync> Judge<G> {
    /// Whether a shape of these cells may stand behind so many entries.
    fn is_in_place(&self, entries: u32, cells: &[Cell]) -> bool
        requires { HasShapes self.now.header self.now.header.subject self.now.shapes }
        ensures place { IsTrue result
            ↔ IsInPlace (geometry_of self.now.header.grid) self.now.header.subject entries cells.now }
        ensures room { IsTrue result → entries + 1 < 2 ^ 32 }
    {
        let Some(shapes) = &self.shapes else {
            return entries < GIVEN_MAX;
        };
        let shapes = shapes.as_slice();
        let before = entries as usize;
        if shapes.len() <= before {
            return false;
        }
        shapes[before].cells() == cells
    }

    /// Whether the entries so far are all that the header asks for.
    fn are_all(&self) -> bool
        requires { HasShapes self.now.header self.now.header.subject self.now.shapes }
        ensures { IsTrue result ↔ AreAll self.now.header self.now.header.subject self.now.entries }
    {
        match &self.shapes {
            None => true,
            Some(shapes) => shapes.len() == self.entries as usize,
        }
    }

    /// The answer where the next entry isn't good.
    fn next_is_invalid(&self) -> Checked
        ensures { result ≡ Checked.InvalidEntry (self.now.entries + 1) }
    {
        Checked::InvalidEntry {
            number: u64::from(self.entries) + 1,
        }
    }

    /// Judges an end.
    fn judge_end(&self) -> Option<Checked>
        requires { HasShapes self.now.header self.now.header.subject self.now.shapes }
        ensures { JudgesEnd self.now.header self.now.entries self.now.entries result }
    {
        if self.are_all() {
            return None;
        }
        Some(Checked::InvalidEnd)
    }

    /// Judges an item behind those so far: the answer where it is at fault. An entry is audited once.
    fn judge<T: Threads + Sync>(
        &mut self,
        rt: &T,
        alloc: Global,
        item: &Item,
    ) -> Result<Option<Checked>, NoMemory>
        requires grid { geometry_of self.old.header.grid ≡ G.geometry }
        requires shapes { HasShapes self.old.header self.old.header.subject self.old.shapes }
        requires limits { AreLimits self.old.header.limits }
        requires fit { IsFit item.now }
        ensures judges { IfOk result (Judges self.old.header self.old.entries self.new.entries item.now) }
        ensures kept { self.new ≡ record self.old { entries = self.new.entries } }
    {
        match item {
            Item::Header { header: _ } => Ok(Some(Checked::InvalidEnd)),
            Item::Entry { line: _, entry } => {
                if !self.is_in_place(self.entries, entry.cells.as_slice()) {
                    return Ok(Some(self.next_is_invalid()));
                }
                match audit::<G, T>(rt, alloc, entry, self.header.limits)? {
                    EntryAnswer::Invalid { part: _ } => Ok(Some(self.next_is_invalid())),
                    EntryAnswer::Valid => {
                        self.entries += 1;
                        Ok(None)
                    }
                }
            }
            Item::Brief { .. } => Ok(Some(self.next_is_invalid())),
            Item::End { count: _ } => Ok(self.judge_end()),
        }
    }

    /// How many entries there are behind so many with those that stand first among the items, each in its place.
    pub fn placed(&self, before: u32, items: &[Item]) -> u32
        requires { HasShapes self.now.header self.now.header.subject self.now.shapes }
        ensures more { before ≤ result }
        ensures some { result ≤ before + length items.now }
        ensures placed { ArePlaced self.now.header before (take (result - before) items.now) }
    {
        let mut entries = before;
        for item in items {
            let Item::Entry { line: _, entry } = item else {
                return entries;
            };
            if !self.is_in_place(entries, entry.cells.as_slice()) {
                return entries;
            }
            entries += 1;
        }
        entries
    }

    /// Whether each entry of the numbers from `before` to before `until` is true, in order: those that stand first
    /// among the items, each in its place.
    ///
    /// The caller's thread is one of the workers, and does what is done `first` before it audits, at `NoMemory` too.
    pub fn audits_between<T: Threads + Sync, H: Gate + Sync, A, F: FnMut() -> A>(
        &self,
        crew: &Crew<'_, T, H>,
        before: u32,
        until: u32,
        items: &[Item],
        first: &mut F,
    ) -> (Result<Vec<bool>, NoMemory>, A)
        requires grid { geometry_of self.now.header.grid ≡ G.geometry }
        requires limits { AreLimits self.now.header.limits }
        requires fit { AllByRecursion IsFit items.now }
        requires order { before ≤ until }
        requires some { until ≤ before + length items.now }
        requires placed { ArePlaced self.now.header before (take (until - before) items.now) }
        requires first { F.pre first.old }
        ensures len { IfOk result.0 (λ audits. before + vec_len audits ≡ until) }
        ensures audits { IfOk result.0 (λ audits. AreAuditsBehind self.now.header before items.now audits.items) }
        ensures first { F.step first.old result.1 first.new }
    {
        let handle = SharedHandle { rt: crew.rt };
        let crew = Crew::new(&handle, crew.alloc, crew.workers, crew.gate);
        audits::<G, SharedHandle<'_, T>, H, A, F>(
            &crew,
            items,
            before,
            until,
            self.header.limits,
            first,
        )
    }

    /// The answer where a line begins as the last one does in an input that is longer than is read. It comes too
    /// early, with this answer, unless the entries so far are all.
    fn answer_early(&self, line: u64, early: Checked) -> Checked
        requires { HasShapes self.now.header self.now.header.subject self.now.shapes }
        ensures { AnswersEarly self.now.header self.now.entries line early result }
    {
        if self.are_all() {
            return Checked::TooLong { line };
        }
        early
    }

    /// The answer where the input is longer than is read, by how the line at hand begins.
    fn answer_long(&self, line: u64, ending: AtHand) -> Checked
        requires { HasShapes self.now.header self.now.header.subject self.now.shapes }
        ensures { AnswersLong self.now.header self.now.entries line ending result }
    {
        match ending {
            AtHand::Other => Checked::TooLong { line },
            AtHand::Next => self.answer_early(line, Checked::InvalidEnd),
            AtHand::Inside => self.answer_early(line, self.next_is_invalid()),
        }
    }

    /// The answer where reading stops behind items that were all judged good.
    fn answer(&self, reading: Reading) -> Option<Checked>
        requires { HasShapes self.now.header self.now.header.subject self.now.shapes }
        ensures { IsAnswerOf self.now.header self.now.entries reading result }
    {
        let entries = self.entries;
        match reading {
            Reading::More => None,
            Reading::End => Some(Checked::Valid { count: entries }),
            Reading::Fault { part } => Some(fault_behind(entries, part)),
            Reading::TooLong { line, ending } => Some(self.answer_long(line, ending)),
        }
    }

    /// Judges items, up to the first at fault, where those that stand first among them were audited, and then what
    /// reading came to behind them: the answer, unless more may follow.
    pub fn judge_audited_round<T: Threads + Sync>(
        &mut self,
        rt: &T,
        alloc: Global,
        items: &[Item],
        audits: &[bool],
        reading: Reading,
    ) -> Result<Option<Checked>, NoMemory>
        requires grid { geometry_of self.old.header.grid ≡ G.geometry }
        requires shapes { HasShapes self.old.header self.old.header.subject self.old.shapes }
        requires limits { AreLimits self.old.header.limits }
        requires fit { AllByRecursion IsFit items.now }
        requires audits { AreAuditsBehind self.old.header self.old.entries items.now audits.now }
        ensures judges { IfOk result
            (JudgesRound self.old.header self.old.entries self.new.entries items.now reading) }
        ensures kept { self.new ≡ record self.old { entries = self.new.entries } }
    {
        let good = leading(audits);
        self.entries += good as u32;
        if good < audits.len() {
            return Ok(Some(self.next_is_invalid()));
        }
        let others = &items[good..];
        for item in others {
            let answer = self.judge(rt, alloc, item)?;
            if answer.is_some() {
                return Ok(answer);
            }
        }
        Ok(self.answer(reading))
    }
}
