//! The words that name a grid and a subject.

ghost use Rattle.std.specs.Prelude.{◌≡◌, ◌≢◌, IfOk, OnErr};
ghost use Rattle.heesch_cert.specs.declared.header.Subject.{Subject};
ghost use Rattle.heesch_grid.specs.Names.{grid_word};
ghost use Rattle.heesch_cert.specs.Sizes.{IsSubject, subject_word};

use crate::Usage;
use crate::numbers::number;
use heesch_cert::{Subject, has_grid, most_cells};
use heesch_cnf::Version;
use heesch_grid::GridName;

/// The grid that a word names.
pub fn grid_named(word: &str) -> Result<GridName, Usage>
    ensures ok { IfOk result (λ grid. word.now ≡ grid_word grid) }
    ensures usage { OnErr result ((grid : GridName) → word.now ≢ grid_word grid) }
{
    GridName::named(word).ok_or(Usage)
}

/// The subject of a catalogue of this version that a word names: the shapes that are given, or those
/// of a size.
pub fn subject_named(version: Version, grid: GridName, word: &str) -> Result<Subject, Usage>
    ensures ok { IfOk result
        (λ subject. IsSubject version grid subject × (word.now ≡ subject_word subject)) }
    ensures usage { OnErr result
        ((subject : Subject) → IsSubject version grid subject → word.now ≢ subject_word subject) }
{
    if word == "given" && has_grid(version, grid) {
        return Ok(Subject::Given);
    }
    let n = number(word, 1, u64::from(most_cells(version, grid)))? as u32;
    Ok(Subject::Size { n })
}
