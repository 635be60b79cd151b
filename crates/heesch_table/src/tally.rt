//! The tally of shapes by their verdicts.
ghost use Rattle.std.specs.Prelude.{◌≡◌, ◌+◌, ◌<◌, ◌^◌, ◌++◌, ◌∷◌, [], Bool, List, length, take, OnOk, OnErr};
ghost use Rattle.heesch_cert.specs.declared.verdict.Verdict.{Verdict};
ghost use Rattle.heesch_table.specs.Counts.{counts_of};
ghost use Rattle.heesch_table.specs.Holed.{IsHoled};
ghost use Rattle.heesch_table.specs.Texts.{counts_text};

use crate::fields::append_counts;
use crate::heesch::HeeschCounts;
use crate::holes::has_hole;
use crate::verdicts::VerdictCounts;
use heesch_cert::Verdict;
use heesch_grid::Grid;
use heesch_io::NoMemory;
use heesch_shape::Shape;
use std::alloc::Global;
use std::marker::Model;

/// How many shapes of a list have each property. Contracts see the counts, which `counts_of` says
/// of a list.
#[derive(Drop)]
pub struct Tally {
    shapes: u64,
    holed: u64,
    verdicts: VerdictCounts,
    heesch: HeeschCounts,
}

impl Model for Tally {
    ghost use Rattle.heesch_table.specs.Counts.{Counts};

    ghost Value = { Counts };

    ghost use Rattle.heesch_table.specs.Steps.{AreAtMostShapes};

    ghost view = { λ t. record { shapes = t.shapes; holed = t.holed; verdicts = t.verdicts; heesch = t.heesch } };

    ghost invariant = { λ t. AreAtMostShapes
        (record { shapes = t.shapes; holed = t.holed; verdicts = t.verdicts; heesch = t.heesch }) };
}

impl Tally {
    /// The tally of no shape. It takes no memory.
    pub fn new(alloc: Global) -> Tally
        ensures { result ≡ counts_of [] }
    {
        Tally {
            shapes: 0,
            holed: 0,
            verdicts: VerdictCounts::default(),
            heesch: HeeschCounts::new(alloc),
        }
    }

    /// One more shape, by whether it has a hole and by its verdict. Fewer than 2^32 shapes were
    /// added before.
    ///
    /// Errors: at `NoMemory` the tally is as it was before. Its cost is a search among the Heesch
    /// numbers that occur.
    pub fn add(&mut self, holed: bool, verdict: &Verdict) -> Result<(), NoMemory>
        requires { self.old.shapes < 2 ^ 32 }
        ensures ok { (found : List (Bool × Verdict)) → self.old ≡ counts_of found
            → OnOk result (self.new ≡ counts_of (found ++ (holed, verdict.now) ∷ [])) }
        ensures shapes { OnOk result (self.new.shapes ≡ self.old.shapes + 1) }
        ensures err { OnErr result (self.new ≡ self.old) }
    {
        self.heesch.add(verdict)?;
        self.shapes += 1;
        self.holed += u64::from(holed);
        self.verdicts.add(verdict);
        Ok(())
    }

    /// One more shape, by its cells and its verdict. Fewer than 2^32 shapes were added before.
    ///
    /// Errors: at `NoMemory` the tally is as it was before. Whether the shape has a hole is found by
    /// a flood of the window around it, with memory for that window; else its cost is that of `add`.
    pub fn add_shape<G: Grid>(
        &mut self,
        alloc: Global,
        shape: &Shape<G>,
        verdict: &Verdict,
    ) -> Result<(), NoMemory>
        requires { self.old.shapes < 2 ^ 32 }
        ensures ok { (found : List (Bool × Verdict)) → self.old ≡ counts_of found
            → OnOk result ((holed : Bool) × IsHoled G.geometry shape.now holed
            × (self.new ≡ counts_of (found ++ (holed, verdict.now) ∷ []))) }
        ensures shapes { OnOk result (self.new.shapes ≡ self.old.shapes + 1) }
        ensures err { OnErr result (self.new ≡ self.old) }
    {
        let holed = has_hole(alloc, shape)?;
        self.add(holed, verdict)
    }

    /// Appends the lines `shapes N`, `holed N`, `translation N`, `halfturn N`, `periodic N` and
    /// `isohedral N`, a line `heesch H N` for each Heesch number H that occurs, rising, and the lines
    /// `undecided levels N`, `undecided holes N`, `undecided turns N` and `undecided size N`.
    ///
    /// Errors: at `NoMemory` the text is as it was before. Its cost is the length of the lines.
    pub fn write(&self, out: &mut Vec<u8>) -> Result<(), NoMemory>
        ensures ok { OnOk result (out.new.items ≡ out.old.items ++ counts_text self.now) }
        ensures err { OnErr result (out.new.items ≡ out.old.items) }
    {
        let before = out.len();
        let written = self.append(out);
        if written.is_err() {
            out.truncate(before);
        }
        written
    }

    fn append(&self, out: &mut Vec<u8>) -> Result<(), NoMemory>
        ensures ok { OnOk result (out.new.items ≡ out.old.items ++ counts_text self.now) }
        ensures kept { take (length out.old.items) out.new.items ≡ out.old.items }
    {
        append_counts(
            &[
                (b"shapes ", self.shapes),
                (b"holed ", self.holed),
                (b"translation ", self.verdicts.translation),
                (b"halfturn ", self.verdicts.halfturn),
                (b"periodic ", self.verdicts.periodic),
                (b"isohedral ", self.verdicts.isohedral),
            ],
            out,
        )?;
        self.heesch.append(out)?;
        append_counts(
            &[
                (b"undecided levels ", self.verdicts.levels),
                (b"undecided holes ", self.verdicts.holes),
                (b"undecided turns ", self.verdicts.turns),
                (b"undecided size ", self.verdicts.size),
            ],
            out,
        )
    }
}
