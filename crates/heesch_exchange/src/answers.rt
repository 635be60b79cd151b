//! The answer to `answer`.
ghost use Rattle.std.specs.Prelude.{◌≡◌, ◌≤◌, ◌++◌, IfOk, IfErr};
ghost use Rattle.heesch_grid.specs.Names.{geometry_of};
ghost use Rattle.heesch_exchange.specs.Answers.{IsAnswer, IsAnswerStop, false_text};

use crate::asked::Asked;
use crate::falsity::first_false;
use crate::lines::cut_line;
use crate::model::values_of;
use crate::shapes::{TOO_LONG, encode_line, first_line, is_late};
use heesch_cnf::Version;
use heesch_grid::{Grid, GridName};
use heesch_io::NoMemory;
use heesch_kite::on_grid;
use heesch_levels::layers_of;
use heesch_line::LineStop;
use heesch_text::write_coronas;
use itoa::Buffer;
use std::alloc::Global;

/// The fault of an empty input.
const NO_LINE: u32 = 13;

/// The fault of a shape's line without its newline.
const NOT_ENDED: u32 = 6;

/// The coronas that a model text has of the corona formula of a level and a version: `coronas J` and a layer line for
/// each. Or, where its assignment makes the formula false, `false I` with the least clause that is false. The input is
/// the line of a shape's cells and behind it the model text. `MOST` is the most bytes that are read of an input.
///
/// Condition: the level is 1 to 6, the size 1 to 60,000,000. `Fault` has the first line at fault, from 1, and the
/// number of its fault: 13 where the input is empty; 8 where the shape's line doesn't end within `MOST` bytes and the
/// input goes on beyond them; 6 where it isn't the line that is wanted there; 1 to 5 where its cells are no shape; 14
/// where the shape's formula is too large; 15 where it names a variable that isn't the formula's or was named before.
/// In one line 13 comes before 8, 8 before 6, 6 before 1 to 5, then 14, and 15 last. 14 comes exactly where the
/// formula has more than `size` literals. The cost is that of `encode_flat`, of the text, and of a look at each
/// variable for each level.
pub fn answer<const MOST: u64>(
    alloc: Global,
    grid: GridName,
    level: u32,
    size: u32,
    version: Version,
    input: &[u8],
) -> Result<Vec<u8>, LineStop<u32>>
    requires level { (1 ≤ level) × (level ≤ 6) }
    requires size { (1 ≤ size) × (size ≤ 60000000) }
    ensures ok { IfOk result (λ text. IsAnswer MOST version (geometry_of grid) level size input.now text.items) }
    ensures stop { IfErr result (IsAnswerStop MOST version (geometry_of grid) level size input.now) }
{
    let asked = Asked {
        level,
        size,
        version,
        most: MOST,
    };
    on_grid!(grid, answer_of::<_>(alloc, asked, input))
}

fn answer_of<G: Grid>(alloc: Global, asked: Asked, input: &[u8]) -> Result<Vec<u8>, LineStop<u32>>
    requires level { (1 ≤ asked.level) × (asked.level ≤ 6) }
    requires size { (1 ≤ asked.size) × (asked.size ≤ 60000000) }
    ensures ok { IfOk result (λ text.
        IsAnswer asked.most asked.version G.geometry asked.level asked.size input.now text.items) }
    ensures stop { IfErr result (IsAnswerStop asked.most asked.version G.geometry asked.level asked.size input.now) }
{
    if input.is_empty() {
        return Err(LineStop::Fault {
            line: 1,
            fault: NO_LINE,
        });
    }
    if is_late(asked.most, input, first_line(input).0) {
        return Err(LineStop::Fault {
            line: 1,
            fault: TOO_LONG,
        });
    }
    let Some((line, model)) = cut_line(input) else {
        return Err(LineStop::Fault {
            line: 1,
            fault: NOT_ENDED,
        });
    };
    let encoded = encode_line::<G>(alloc, line, asked)?;
    let values = values_of(alloc, model, encoded.formula.vars())?;
    let mut text = Vec::new(alloc);
    match first_false(&encoded.formula, values.as_slice()) {
        Some(number) => append_false(number, &mut text)?,
        None => {
            let layers = layers_of(alloc, &encoded.universe, values.as_slice())?;
            write_coronas(&layers, &mut text)?;
        }
    }
    Ok(text)
}

/// The line `false I`.
fn append_false(number: u32, text: &mut Vec<u8>) -> Result<(), NoMemory>
    ensures { IfOk result (λ _. text.new.items ≡ text.old.items ++ false_text number) }
{
    text.extend_from_slice(b"false ")?;
    text.extend_from_slice(Buffer::new().format(number).as_bytes())?;
    text.push(b'\n')?;
    Ok(())
}
