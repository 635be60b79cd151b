//! A catalogue that is written as it is made.
ghost use Rattle.std.specs.Prelude.{◌≡◌, ◌≤◌, All, Err, IfOk, OnErr, OnOk};
ghost use Rattle.heesch_io.specs.Causes.{Rose};
ghost use Rattle.heesch_cert.specs.Limits.{AreLimits};
ghost use Rattle.heesch_grid.specs.Names.{geometry_of};
ghost use Rattle.heesch_grid.specs.Polyform.{IsCanonicalListOf};
ghost use Rattle.heesch_text.specs.Catalogue.{header_text};
ghost use Rattle.heesch_catalogue.specs.Catalogues.{IsBegunCatalogue, IsBegunCatalogueOfSize};
ghost use Rattle.heesch_catalogue.specs.Catalogues.{IsCatalogue, IsCatalogueOfSize};
ghost use Rattle.heesch_catalogue.specs.Rounds.{BeginsOne, WritesOne};

use crate::entries::EntryText;
use crate::rounds::write_texts;
use crate::sizes::write_texts_of_size;
use heesch_cert::Header;
use heesch_grid::Grid;
use heesch_io::{IoStop, NoMemory, Sink};
use heesch_pool::{Crew, Gate};
use heesch_shape::Shape;
use heesch_text::write_header;
use std::alloc::Global;
use std::thread::Threads;

/// Writes the catalogue text, under the header, of all free polyforms of n cells: `write_catalogue` of their list. n
/// is 1 to 31.
///
/// Errors: as of `write_catalogue`; where memory was refused for the list of the shapes, nothing was written. Beside
/// that list it keeps the entries of one round.
pub fn write_catalogue_of_size<T: Threads + Sync, W: Sink, H: Gate + Sync>(
    crew: &Crew<'_, T, H>,
    header: &Header,
    n: u32,
    sink: &mut W,
) -> Result<(), IoStop>
    requires size { (1 ≤ n) × (n ≤ 31) }
    requires limits { AreLimits header.now.limits }
    ensures ok { OnOk result
        (WritesOne (IsCatalogueOfSize (geometry_of header.now.grid) header.now n)
        (W.held sink.old) (W.held sink.new)) }
    ensures err { OnErr result
        (BeginsOne (IsBegunCatalogueOfSize (geometry_of header.now.grid) header.now n)
        (W.held sink.old) (W.held sink.new)) }
    ensures failed { result ≡ Err IoStop.Failed → Rose (W.faults sink.old) (W.faults sink.new) }
    ensures later { W.faults sink.old ≤ W.faults sink.new }
{
    let head = head_of(crew.alloc, header)?;
    let texts = texts_of(header);
    write_texts_of_size(crew, &head, &texts, header.grid, n, sink)
}

/// Writes the catalogue text, under the header, of canonical shapes: the header's text, then after each 256 shapes are
/// classified their entries' texts, in the shapes' order, then the end's text, each by one `put`. The gate is told
/// of each shape's number in the list.
///
/// Errors: `Failed` only where the sink's count of faults rose; `NoMemory` also where there are 2^32 shapes or more.
/// What was written is then a beginning of a catalogue text. It keeps the entries and the text of one round, and takes
/// nearly all of its time to classify the shapes.
pub fn write_catalogue<G: Grid + Send + Sync, T: Threads + Sync, W: Sink, H: Gate + Sync>(
    crew: &Crew<'_, T, H>,
    header: &Header,
    shapes: &[Shape<G>],
    sink: &mut W,
) -> Result<(), IoStop>
    requires canonical { All (λ s. IsCanonicalListOf G.geometry s s) shapes.now }
    requires limits { AreLimits header.now.limits }
    ensures ok { OnOk result
        (WritesOne (IsCatalogue G.geometry header.now shapes.now) (W.held sink.old) (W.held sink.new)) }
    ensures err { OnErr result
        (BeginsOne (IsBegunCatalogue G.geometry header.now shapes.now) (W.held sink.old) (W.held sink.new)) }
    ensures failed { result ≡ Err IoStop.Failed → Rose (W.faults sink.old) (W.faults sink.new) }
    ensures later { W.faults sink.old ≤ W.faults sink.new }
{
    let head = head_of(crew.alloc, header)?;
    let texts = texts_of(header);
    write_texts(crew, &head, &texts, shapes, sink)
}

/// The header's text.
fn head_of(alloc: Global, header: &Header) -> Result<Vec<u8>, NoMemory>
    ensures { IfOk result (λ text. text.items ≡ header_text header.now) }
{
    let mut text = Vec::new(alloc);
    write_header(header, &mut text)?;
    Ok(text)
}

/// The texts of entries, as the header asks for them.
fn texts_of(header: &Header) -> EntryText
    requires { AreLimits header.now.limits }
    ensures { (are : AreLimits header.now.limits)
        × (result ≡ record { brief = header.now.brief; limits = header.now.limits; valid = are }) }
{
    EntryText {
        brief: header.brief,
        limits: header.limits,
    }
}
