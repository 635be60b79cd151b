//! The catalogue that a request asks for.
ghost use Rattle.std.specs.Prelude.{◌≡◌};
ghost use Rattle.std.specs.Io.KnownBytes.{IsAtEnd};
ghost use Rattle.heesch_cert.specs.Limits.{AreLimits};
ghost use Rattle.heesch_io.specs.Causes.{Rose};
ghost use Rattle.heesch_app.specs.Endings.{EndsAs};
ghost use Rattle.heesch_app.specs.Inputs.{ConsumesSome};
ghost use Rattle.heesch_app.specs.Outputs.{IsBegunOutput, IsOutput, Reads, ReadsToEnd, classify_of};
ghost use Rattle.heesch_app.specs.Ranges.{IsSubjectInRange};

use crate::Status;
use crate::given::{GivenText, write_given_text};
use heesch_catalogue::write_catalogue_of_size;
use heesch_cert::{Header, Subject};
use heesch_io::{Sink, Source};
use heesch_pool::{Crew, Gate};
use std::thread::Threads;

/// Writes the catalogue text, under the header, of the polyforms of its size, or of the shapes of the list text that
/// the source has left; or the first fault of the list text.
#[tactic(auto, using(crate::proofs::Consumed::none_consumed))]
pub fn write_asked_catalogue<T: Threads + Sync, R: Source, W: Sink, H: Gate + Sync>(
    crew: &Crew<'_, T, H>,
    header: &Header,
    source: &mut R,
    sink: &mut W,
) -> Status
    requires subject { IsSubjectInRange header.now.subject }
    requires limits { AreLimits header.now.limits }
    ensures ends { EndsAs (IsOutput (classify_of header.now crew.now.workers) (R.left source.old))
        (IsBegunOutput (classify_of header.now crew.now.workers) (R.left source.old))
        (W.held sink.old) (W.held sink.new) result }
    ensures ended { result ≡ Status.Done → ReadsToEnd (classify_of header.now crew.now.workers)
        → IsAtEnd (R.left source.new) }
    ensures consumed { ConsumesSome (R.left source.old) (R.left source.new) }
    ensures read_fault { result ≡ Status.ReadFault
        → Reads (classify_of header.now crew.now.workers) × Rose (R.faults source.old) (R.faults source.new) }
    ensures unwritten { result ≡ Status.ReadFault → sink.new ≡ sink.old }
    ensures write_fault { result ≡ Status.WriteFault → Rose (W.faults sink.old) (W.faults sink.new) }
    ensures unread { ¬ Reads (classify_of header.now crew.now.workers) → source.new ≡ source.old }
{
    match header.subject {
        Subject::Size { n } => {
            let written = write_catalogue_of_size(crew, header, n, sink);
            Status::of_writing(written)
        }
        Subject::Given => {
            let text = GivenText::Catalogue { header: *header };
            write_given_text(crew, header.grid, &text, source, sink)
        }
    }
}
