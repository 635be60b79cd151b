//! The entry that lines are.
ghost use Rattle.std.specs.Prelude.{◌≡◌, ◌↔◌, IfOk, IsTrue, MatchOption, false};
ghost use Rattle.heesch_text.specs.Catalogue.{entry_lines};
ghost use Rattle.heesch_grammar.specs.Entries.{HoldsItsLines, LeadOver};
ghost use Rattle.heesch_grammar.specs.Grammar.{steps};
ghost use Rattle.heesch_grammar.specs.Statements.{start};
ghost use Rattle.heesch_outer_check.specs.ReadableRecords.{IsEntryOf};

use heesch_cert::Entry;
use heesch_grammar::{Place, Spot, entry_of};
use heesch_io::NoMemory;
use heesch_text::Line;
use std::alloc::Global;
use std::collections::VecDeque;

/// Where the lines lead in a full catalogue, behind its header. None where one of them may not stand.
fn spot_behind(lines: &[Line]) -> Option<Spot>
    ensures { result ≡ steps false start lines.now }
{
    let mut spot = Spot {
        shapes: 0,
        place: Place::Between,
    };
    for line in lines {
        spot = spot.step(false, line)?;
    }
    Some(spot)
}

/// Whether the lines may stand as those of one entry in a full catalogue.
fn may_stand(lines: &[Line]) -> bool
    ensures { IsTrue result ↔ LeadOver false start lines.now }
{
    match spot_behind(lines) {
        Some(spot) => spot.shapes == 1 && spot.place.is_whole(),
        None => false,
    }
}

/// The entry that has these lines and holds nothing beyond them. None where they may not stand as those of one entry
/// in a full catalogue.
pub fn read_entry(alloc: Global, lines: Vec<Line>) -> Result<Option<Entry>, NoMemory>
    ensures { IfOk result (λ r. MatchOption r (LeadOver false start lines.items → ⊥) (IsEntryOf lines.items)) }
{
    if !may_stand(lines.as_slice()) {
        return Ok(None);
    }
    Ok(Some(entry_of(alloc, VecDeque::from_vec(lines))?))
}
