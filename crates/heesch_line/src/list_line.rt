//! One line of the text of a list, read byte by byte.
ghost use Rattle.std.specs.Prelude.{◌≡◌, ◌≢◌, ◌↔◌, ℕ, List, [], ◌∷◌, ◌++◌, ◌<◌, length, false, Err, IsErr, IfOk};
ghost use Rattle.std.specs.Prelude.{IfErr, IsTrue};
ghost use Rattle.heesch_grid.specs.Vectors.{IsWithin};
ghost use Rattle.heesch_grid.specs.declared.Cell.{Cell as CellOf};
ghost use Rattle.heesch_line.specs.Scanning.{IsScanned, IsLineOf, IsNoLine, NeedsRoom, first_of};
ghost use Rattle.heesch_text.specs.Fields.{cell_text};

use crate::LineFault;
use crate::fields::cell;
use heesch_cert::Cells;
use heesch_grid::Cell;
use heesch_io::{NoMemory, Seq};
use std::alloc::Global;
use std::marker::Model;

/// The most bytes of a cell's text.
const WORD_MAX: usize = 23;

/// The most cells of a line that are kept: one more than a shape has.
const CELLS_MAX: usize = 33;

/// A line of a list as far as it was read. It keeps at most 33 cells and one word, however long the line is.
#[derive(Drop)]
pub struct ListLine {
    cells: Cells,
    word: Vec<u8>,
    faulty: bool,
}

impl Model for ListLine {
    ghost use Rattle.heesch_line.specs.Scanning.{Scanned};

    ghost Value = { Scanned };

    ghost view = { λ s. record { cells = s.cells; word = s.word.items; faulty = s.faulty } };
}

/// The cell whose text the bytes are.
fn whole_cell(bytes: &[u8]) -> Result<Cell, LineFault>
    ensures ok { IfOk result (λ c. IsWithin 100000 c × (bytes.now ≡ cell_text c)) }
    ensures none { result ≡ Err LineFault.NotALine → (c : CellOf) → IsWithin 100000 c → bytes.now ≢ cell_text c }
    ensures err { IfErr result (λ e. e ≡ LineFault.NotALine) }
{
    match cell(bytes) {
        Ok((cell, rest)) => {
            if rest.is_empty() {
                return Ok(cell);
            }
            Err(LineFault::NotALine)
        }
        Err(LineFault::NotALine) => Err(LineFault::NotALine),
        Err(LineFault::NoMemory) => Err(LineFault::NoMemory),
    }
}

/// Keeps a cell, if it is among the first 33 of its line.
fn keep(cells: &mut Cells, cell: Cell) -> Result<(), NoMemory>
    ensures kept { (all : List CellOf) → cells.old ≡ first_of all
        → IfOk result (λ _. cells.new ≡ first_of (all ++ cell ∷ [])) }
    ensures same { IsErr result → cells.new ≡ cells.old }
    ensures room { IsErr result → length cells.old < 33 }
{
    if cells.len() >= CELLS_MAX {
        return Ok(());
    }
    cells.push(cell)?;
    Ok(())
}

impl ListLine {
    /// A line of which nothing was read. It takes no memory.
    pub fn new(alloc: Global) -> ListLine
        ensures { IsScanned [] result }
    {
        ListLine {
            cells: Seq::new(alloc),
            word: Vec::new(alloc),
            faulty: false,
        }
    }

    /// Whether a byte of the line was read.
    pub fn has_begun(&self) -> bool
        ensures { (line : List ℕ) → IsScanned line self.now → IsTrue result ↔ (line ≢ []) }
    {
        if self.faulty {
            return true;
        }
        if !self.cells.is_empty() {
            return true;
        }
        !self.word.is_empty()
    }

    /// Reads one more byte of the line. At want of memory nothing has changed; a line that is known to be none takes
    /// none.
    pub fn take(&mut self, byte: u8) -> Result<(), NoMemory>
        ensures taken { (line : List ℕ) → IsScanned line self.old
            → IfOk result (λ _. IsScanned (line ++ byte ∷ []) self.new) }
        ensures kept { IsErr result → self.new ≡ self.old }
        ensures memory { IsErr result → self.old.faulty ≡ false }
    {
        if self.faulty {
            return Ok(());
        }
        if byte == b' ' {
            return self.end_word();
        }
        if self.word.len() >= WORD_MAX {
            self.faulty = true;
            return Ok(());
        }
        self.word.push(byte)?;
        Ok(())
    }

    /// Ends a word by a space.
    fn end_word(&mut self) -> Result<(), NoMemory>
        requires { self.old.faulty ≡ false }
        ensures taken { (line : List ℕ) → IsScanned line self.old
            → IfOk result (λ _. IsScanned (line ++ 32 ∷ []) self.new) }
        ensures kept { IsErr result → self.new ≡ self.old }
    {
        match whole_cell(&self.word) {
            Ok(cell) => {
                keep(&mut self.cells, cell)?;
                self.word.clear();
                Ok(())
            }
            Err(LineFault::NotALine) => {
                self.faulty = true;
                Ok(())
            }
            Err(LineFault::NoMemory) => Err(NoMemory),
        }
    }

    /// The first 33 cells of the line, which has all its bytes; a line without a byte has none.
    ///
    /// `NotALine` comes exactly where the line isn't cells with single spaces between them. Memory is taken for the
    /// last cell alone, where fewer than 33 are kept.
    pub fn finish(self) -> Result<Cells, LineFault>
        ensures ok { (line : List ℕ) → IsScanned line self → IfOk result (IsLineOf line) }
        ensures none { (line : List ℕ) → IsScanned line self → result ≡ Err LineFault.NotALine → IsNoLine line }
        ensures memory { result ≡ Err LineFault.NoMemory → NeedsRoom self }
    {
        let begun = self.has_begun();
        let ListLine {
            mut cells,
            word,
            faulty,
        } = self;
        if faulty {
            return Err(LineFault::NotALine);
        }
        if !begun {
            return Ok(cells);
        }
        match whole_cell(&word) {
            Ok(last) => {
                keep(&mut cells, last)?;
                Ok(cells)
            }
            Err(LineFault::NotALine) => Err(LineFault::NotALine),
            Err(LineFault::NoMemory) => Err(LineFault::NoMemory),
        }
    }
}
