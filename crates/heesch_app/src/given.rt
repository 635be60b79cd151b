//! The text that is written of the shapes of a list text: their catalogue, or their outer text.
ghost use Rattle.std.specs.Prelude.{◌≡◌, All, Err, OnErr, OnOk};
ghost use Rattle.heesch_catalogue.specs.Rounds.{BeginsOne, WritesOne};
ghost use Rattle.heesch_cert.specs.Limits.{AreLimits};
ghost use Rattle.heesch_grid.specs.Names.{geometry_of};
ghost use Rattle.heesch_grid.specs.Polyform.{IsCanonicalListOf};
ghost use Rattle.heesch_io.specs.Causes.{Rose};
ghost use Rattle.heesch_app.specs.GivenTexts.{AnswersGiven, IsBegunTextOf, IsTextOf, limits_of};

use crate::Status;
use crate::bad_input::bad_input;
use crate::reply::put_reply;
use heesch_catalogue::write_catalogue;
use heesch_cert::{Header, Limits};
use heesch_given::shapes_given;
use heesch_grid::{Grid, GridName};
use heesch_io::{IoStop, Sink, Source};
use heesch_kite::on_grid;
use heesch_line::InputStop;
use heesch_outer::write_outers;
use heesch_pool::{Crew, Gate};
use heesch_reader::INPUT_MAX;
use heesch_shape::Shape;
use std::thread::Threads;

/// What is written of given shapes.
#[derive(Clone, Copy)]
pub enum GivenText {
    /// Their catalogue text, under the header.
    Catalogue { header: Header },
    /// Their outer text, under the limits.
    Outers { limits: Limits },
}

impl GivenText {
    /// Writes this text of canonical shapes.
    fn write<G: Grid + Send + Sync, T: Threads + Sync, W: Sink, H: Gate + Sync>(
        &self,
        crew: &Crew<'_, T, H>,
        shapes: &[Shape<G>],
        sink: &mut W,
    ) -> Result<(), IoStop>
        requires canonical { All (λ s. IsCanonicalListOf G.geometry s s) shapes.now }
        requires limits { AreLimits (limits_of self.now) }
        ensures ok { OnOk result
            (WritesOne (IsTextOf G.geometry self.now shapes.now) (W.held sink.old) (W.held sink.new)) }
        ensures err { OnErr result
            (BeginsOne (IsBegunTextOf G.geometry self.now shapes.now) (W.held sink.old) (W.held sink.new)) }
        ensures failed { result ≡ Err IoStop.Failed → Rose (W.faults sink.old) (W.faults sink.new) }
    {
        match self {
            GivenText::Catalogue { header } => write_catalogue(crew, header, shapes, sink),
            GivenText::Outers { limits } => write_outers(crew, *limits, shapes, sink),
        }
    }
}

/// Writes the text of the shapes of the list text that the source has left, in their order, each by its canonical
/// list; or the first fault of the list text. That is read as `shapes_given` reads it before anything is written, and
/// the text is written as `write_catalogue` or `write_outers` writes it.
pub fn write_given_text<T: Threads + Sync, R: Source, W: Sink, H: Gate + Sync>(
    crew: &Crew<'_, T, H>,
    grid: GridName,
    text: &GivenText,
    source: &mut R,
    sink: &mut W,
) -> Status
    requires limits { AreLimits (limits_of text.now) }
    ensures given { AnswersGiven (geometry_of grid) text.now (R.left source.old) (R.left source.new)
        (W.held sink.old) (W.held sink.new) result }
    ensures read_fault { result ≡ Status.ReadFault → Rose (R.faults source.old) (R.faults source.new) }
    ensures unwritten { result ≡ Status.ReadFault → sink.new ≡ sink.old }
    ensures write_fault { result ≡ Status.WriteFault → Rose (W.faults sink.old) (W.faults sink.new) }
{
    on_grid!(grid, write_given::<_, T, R, W, H>(crew, text, source, sink))
}

fn write_given<G: Grid + Send + Sync, T: Threads + Sync, R: Source, W: Sink, H: Gate + Sync>(
    crew: &Crew<'_, T, H>,
    text: &GivenText,
    source: &mut R,
    sink: &mut W,
) -> Status
    requires limits { AreLimits (limits_of text.now) }
    ensures given { AnswersGiven G.geometry text.now (R.left source.old) (R.left source.new)
        (W.held sink.old) (W.held sink.new) result }
    ensures read_fault { result ≡ Status.ReadFault → Rose (R.faults source.old) (R.faults source.new) }
    ensures unwritten { result ≡ Status.ReadFault → sink.new ≡ sink.old }
    ensures write_fault { result ≡ Status.WriteFault → Rose (W.faults sink.old) (W.faults sink.new) }
{
    match shapes_given::<G, R, INPUT_MAX>(crew.alloc, source) {
        Ok(shapes) => {
            let written = text.write(crew, &shapes, sink);
            Status::of_writing(written)
        }
        Err(InputStop::Fault { line, fault }) => put_reply(
            bad_input(crew.alloc, line, fault),
            sink,
        ),
        Err(InputStop::Failed) => Status::ReadFault,
        Err(InputStop::NoMemory) => Status::NoMemory,
    }
}
