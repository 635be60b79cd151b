//! The joined catalogue of the share texts that a source gives.
ghost use Rattle.std.specs.Prelude.{◌≡◌, ◌≤◌, List, ℕ, None, Err, IfOk, IfErr, OnOk};
ghost use Rattle.std.specs.Io.KnownBytes.{IsAtEnd};
ghost use Rattle.heesch_io.specs.Causes.{Rose};
ghost use Rattle.heesch_parts.specs.Joining.{IsFed};
ghost use Rattle.heesch_io.specs.Input.{ReadsNoFurther};
ghost use Rattle.heesch_parts.specs.Inputs.{GivesJoined, GivesFault, DecideNothing, AreJoined, IsWholeInputStop};

use crate::joiner::Joiner;
use heesch_io::{Seq, Source};
use heesch_line::InputStop;
use heesch_reader::Item;
use std::alloc::Global;

/// The most bytes of a piece.
const PIECE_MAX: usize = 4096;

/// The items of the catalogue that is joined of the share texts that the source has left: the first header, the
/// entries of all shares in their order, and an end with their number. Or the first fault of those texts, with the
/// number that a `Joiner` gives it.
///
/// At most `MOST` bytes are read, and one more that shows that the input is longer: then fault 8 comes where no line
/// that ends in these bytes is at fault. Reading stops with the piece that shows the first fault, and items come at
/// the end of the input alone. `Failed` comes only where the source's count of faults rose, and `NoMemory` where
/// memory was refused. The cost is linear in the input. It keeps the items, and the lines of one entry.
pub fn joined<R: Source, const MOST: u64>(
    alloc: Global,
    source: &mut R,
) -> Result<Seq<Item>, InputStop<u32>>
    ensures ok { IfOk result (GivesJoined MOST (R.left source.old)) }
    ensures stop { IfErr result (GivesFault MOST (R.left source.old)) }
    ensures ended { OnOk result (IsAtEnd (R.left source.new)) }
    ensures no_further { ReadsNoFurther (DecideNothing MOST) (R.left source.old) (R.left source.new) }
    ensures failed { result ≡ Err InputStop.Failed → Rose (R.faults source.old) (R.faults source.new) }
    ensures later { R.faults source.old ≤ R.faults source.new }
{
    let mut joiner = Joiner::new(alloc);
    let mut items = Seq::new(alloc);
    let mut count = 0;
    'pieces: while count < MOST {
        let mut piece = [0; PIECE_MAX];
        let room = (MOST - count).min(PIECE_MAX as u64) as usize;
        let read = source.read(&mut piece[..room])?;
        if read == 0 {
            return finish(joiner, items);
        }
        joiner.feed(&piece[..read], &mut items)?;
        count += read as u64;
    }
    let mut byte = [0; 1];
    if source.read(&mut byte)? == 0 {
        return finish(joiner, items);
    }
    Err(joiner.beyond().into())
}

/// The items of the joined catalogue, where the bytes have ended.
fn finish(joiner: Joiner, items: Seq<Item>) -> Result<Seq<Item>, InputStop<u32>>
    requires { joiner.refusal ≡ None }
    ensures ok { (before : List ℕ) → IsFed before items joiner.kept → IfOk result (AreJoined before) }
    ensures stop { (before : List ℕ) → IsFed before items joiner.kept → IfErr result (IsWholeInputStop before) }
{
    let mut joiner = joiner;
    let mut items = items;
    joiner.finish(&mut items)?;
    Ok(items)
}
