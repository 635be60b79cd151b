//! The answer to `formula`.
ghost use Rattle.std.specs.Prelude.{◌≡◌, ◌≤◌, IfOk, IfErr};
ghost use Rattle.heesch_grid.specs.Names.{geometry_of};
ghost use Rattle.heesch_exchange.specs.Formulas.{IsFormula, IsFormulaStop};

use crate::asked::Asked;
use crate::clauses::write_flat_cnf;
use crate::shapes::{TOO_LONG, encode_line, first_line, is_late};
use heesch_cnf::Version;
use heesch_grid::{Grid, GridName};
use heesch_kite::on_grid;
use heesch_line::LineStop;
use std::alloc::Global;

/// The fault of an input that isn't just one line: of its first line where it is empty, else of its second.
const NOT_ONE_LINE: u32 = 13;

/// The clause text of the corona formula of a level and a version, of the shape whose cells are the one line of the
/// input. The line's newline may be missing. `MOST` is the most bytes that are read of an input.
///
/// Condition: the level is 1 to 6, the size 1 to 60,000,000. `Fault` has the first line at fault, from 1, and the
/// number of its fault: 13 where it is missing or one too many; 8 where it doesn't end within `MOST` bytes and the
/// input goes on beyond them, and else 6 where it isn't cells; 1 to 5 where its cells are no shape; 14 where the
/// shape's formula is too large. In one line 13 comes before 8 and 6, 6 before 1 to 5, and 14 last. 14 comes exactly
/// where the formula has more than `size` literals. The cost is that of `encode_flat` and of the text.
pub fn formula<const MOST: u64>(
    alloc: Global,
    grid: GridName,
    level: u32,
    size: u32,
    version: Version,
    input: &[u8],
) -> Result<Vec<u8>, LineStop<u32>>
    requires level { (1 ≤ level) × (level ≤ 6) }
    requires size { (1 ≤ size) × (size ≤ 60000000) }
    ensures ok { IfOk result (λ text. IsFormula MOST version (geometry_of grid) level size input.now text.items) }
    ensures stop { IfErr result (IsFormulaStop MOST version (geometry_of grid) level size input.now) }
{
    let asked = Asked {
        level,
        size,
        version,
        most: MOST,
    };
    on_grid!(grid, formula_of::<_>(alloc, asked, input))
}

fn formula_of<G: Grid>(alloc: Global, asked: Asked, input: &[u8]) -> Result<Vec<u8>, LineStop<u32>>
    requires level { (1 ≤ asked.level) × (asked.level ≤ 6) }
    requires size { (1 ≤ asked.size) × (asked.size ≤ 60000000) }
    ensures ok { IfOk result (λ text.
        IsFormula asked.most asked.version G.geometry asked.level asked.size input.now text.items) }
    ensures stop { IfErr result (IsFormulaStop asked.most asked.version G.geometry asked.level asked.size input.now) }
{
    if input.is_empty() {
        return Err(LineStop::Fault {
            line: 1,
            fault: NOT_ONE_LINE,
        });
    }
    let (line, behind) = first_line(input);
    if is_late(asked.most, input, line) {
        return Err(LineStop::Fault {
            line: 1,
            fault: TOO_LONG,
        });
    }
    let encoded = encode_line::<G>(alloc, line, asked)?;
    if !behind.is_empty() {
        return Err(LineStop::Fault {
            line: 2,
            fault: NOT_ONE_LINE,
        });
    }
    let mut text = Vec::new(alloc);
    write_flat_cnf(&encoded.formula, &mut text)?;
    Ok(text)
}
