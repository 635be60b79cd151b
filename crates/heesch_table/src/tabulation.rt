//! The tally of a catalogue.
ghost use Rattle.std.specs.Prelude.{◌≡◌, ◌≤◌, Err, IfOk};
ghost use Rattle.heesch_io.specs.Causes.{Rose};
ghost use Rattle.heesch_io.specs.Input.{ReadsNoFurther};
ghost use Rattle.heesch_table.specs.Tabulating.{IsTabulated, DecideNothing, EndsAtTally};

use crate::answers::{EntryFault, Onward, Tabulated};
use crate::table::Table;
use heesch_io::{IoStop, Seq, Source};
use heesch_reader::Stream;
use std::alloc::Global;

/// Reads a catalogue, full or brief, to its end: the text of the tally of its entries, or the first fault.
///
/// An entry is judged once it is whole, so a line that can't stand in it is told before its shape's fault. Reading
/// stops with the piece that decides, and a tally comes at the end of the input alone. Errors: `Failed` only where the
/// source's count of faults rose, and `NoMemory` where memory was refused; what was read before the last piece decides
/// nothing then either. The cost is linear in the input, and for each entry that of `Tally::add_shape`. It keeps the
/// entries of one piece of 4,096 bytes.
pub fn tabulate<R: Source>(alloc: Global, source: &mut R) -> Result<Tabulated, IoStop>
    ensures ok { IfOk result (IsTabulated (R.left source.old)) }
    ensures no_further { ReadsNoFurther DecideNothing (R.left source.old) (R.left source.new) }
    ensures ended { IfOk result (EndsAtTally (R.left source.new)) }
    ensures failed { result ≡ Err IoStop.Failed → Rose (R.faults source.old) (R.faults source.new) }
    ensures later { R.faults source.old ≤ R.faults source.new }
{
    let mut stream = Stream::new(alloc);
    let mut table = Table::new(alloc);
    loop {
        let mut items = Seq::new(alloc);
        let onward = Onward::by(stream.take(source, &mut items))?;
        if let Some(EntryFault { line, number }) = table.count(alloc, items.as_slice())? {
            return Ok(Tabulated::Fault { line, number });
        }
        match onward {
            Onward::More => {}
            Onward::End => {
                let text = table.text(alloc)?;
                return Ok(Tabulated::Tally { text });
            }
            Onward::Fault { line, number } => return Ok(Tabulated::Fault { line, number }),
        }
    }
}
