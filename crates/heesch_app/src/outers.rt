//! The outer text that a request asks for.
ghost use Rattle.std.specs.Prelude.{◌≡◌};
ghost use Rattle.std.specs.Io.KnownBytes.{IsAtEnd};
ghost use Rattle.heesch_cert.specs.Limits.{AreLimits};
ghost use Rattle.heesch_io.specs.Causes.{Rose};
ghost use Rattle.heesch_words.specs.declared.requests.Request.TheVariants.{Outer as OuterRequest};
ghost use Rattle.heesch_app.specs.Endings.{EndsAs};
ghost use Rattle.heesch_app.specs.Inputs.{ConsumesSome};
ghost use Rattle.heesch_app.specs.Outputs.{IsBegunOutput, IsOutput, Reads, ReadsToEnd};
ghost use Rattle.heesch_app.specs.Ranges.{IsSubjectInRange};

use crate::Status;
use crate::given::{GivenText, write_given_text};
use heesch_cert::{Limits, Subject};
use heesch_grid::GridName;
use heesch_io::{Sink, Source};
use heesch_outer::write_outers_of_size;
use heesch_pool::{Crew, Gate};
use std::thread::Threads;

/// Writes the outer text of the polyforms of a size, or of the shapes of the list text that the source has left; or
/// the first fault of the list text.
#[tactic(auto, using(crate::proofs::Consumed::none_consumed))]
pub fn write_outer_numbers<T: Threads + Sync, R: Source, W: Sink, H: Gate + Sync>(
    crew: &Crew<'_, T, H>,
    grid: GridName,
    subject: Subject,
    limits: Limits,
    source: &mut R,
    sink: &mut W,
) -> Status
    requires subject { IsSubjectInRange subject }
    requires limits { AreLimits limits }
    ensures ends { EndsAs (IsOutput (OuterRequest grid subject limits crew.now.workers) (R.left source.old))
        (IsBegunOutput (OuterRequest grid subject limits crew.now.workers) (R.left source.old))
        (W.held sink.old) (W.held sink.new) result }
    ensures ended { result ≡ Status.Done → ReadsToEnd (OuterRequest grid subject limits crew.now.workers)
        → IsAtEnd (R.left source.new) }
    ensures consumed { ConsumesSome (R.left source.old) (R.left source.new) }
    ensures read_fault { result ≡ Status.ReadFault
        → Reads (OuterRequest grid subject limits crew.now.workers)
        × Rose (R.faults source.old) (R.faults source.new) }
    ensures unwritten { result ≡ Status.ReadFault → sink.new ≡ sink.old }
    ensures write_fault { result ≡ Status.WriteFault → Rose (W.faults sink.old) (W.faults sink.new) }
    ensures unread { ¬ Reads (OuterRequest grid subject limits crew.now.workers) → source.new ≡ source.old }
{
    match subject {
        Subject::Size { n } => {
            let written = write_outers_of_size(crew, grid, n, limits, sink);
            Status::of_writing(written)
        }
        Subject::Given => {
            let text = GivenText::Outers { limits };
            write_given_text(crew, grid, &text, source, sink)
        }
    }
}
