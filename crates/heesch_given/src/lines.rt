//! The shapes of a list text as far as it was read.
ghost use Rattle.std.specs.Prelude.{◌≡◌, ◌+◌, ◌≤◌, ℕ, List, [], ◌∷◌, ◌++◌, length, IfOk, IfErr};
ghost use Rattle.std.specs.List.{AllByRecursion};
ghost use Rattle.heesch_grid.specs.Vectors.{IsWithin};
ghost use Rattle.heesch_line.specs.Scanning.{IsScanned};
ghost use Rattle.heesch_shape.specs.Faults.{IsFault, IsFaultless};
ghost use Rattle.heesch_given.specs.Given.{AreGiven, IsCanonicalOf};
ghost use Rattle.heesch_given.specs.Steps.{IsRead, MayGoOn, IsSomeLine, EndsLine, IsFrontStop, IsWholeStop};
ghost use Rattle.heesch_given.specs.Steps.{IsStopBeyond};

use heesch_grid::{Cell, Grid};
use heesch_io::NoMemory;
use heesch_line::{InputStop, LineFault, ListLine};
use heesch_shape::{Shape, ShapeFault};
use std::alloc::Global;
use std::mem::replace;

/// The most lines of a list.
const MOST_SHAPES: usize = 10_000;

/// The fault of a line that is no line of a list.
const NOT_TEXT: u32 = 6;

/// The fault of line 10,001.
const TOO_MANY_SHAPES: u32 = 7;

/// The fault of the line on which the input goes on beyond what is read.
const TOO_LONG: u32 = 8;

/// The canonical forms of the shapes of the lines that ended, and the line that didn't end.
#[derive(Drop)]
pub struct GivenLines<G: Grid> {
    alloc: Global,
    shapes: Vec<Shape<G>>,
    line: ListLine,
}

impl<G: Grid> GivenLines<G> {
    /// Nothing was read. It takes no memory.
    pub fn new(alloc: Global) -> GivenLines<G>
        ensures { IsRead G.geometry [] result.shapes.items result.line }
    {
        GivenLines {
            alloc,
            shapes: Vec::new(alloc),
            line: ListLine::new(alloc),
        }
    }

    /// Reads these bytes, or as many of them as show a fault. After an error nothing is promised of another call.
    pub fn take(&mut self, bytes: &[u8]) -> Result<(), InputStop<u32>>
        requires { MayGoOn G.geometry self.old.shapes.items self.old.line }
        ensures ok { (before : List ℕ) → IsRead G.geometry before self.old.shapes.items self.old.line
            → IfOk result (λ _. IsRead G.geometry (before ++ bytes.now) self.new.shapes.items self.new.line) }
        ensures stop { (before : List ℕ) → IsRead G.geometry before self.old.shapes.items self.old.line
            → IfErr result (IsFrontStop G.geometry (before ++ bytes.now)) }
    {
        for &byte in bytes {
            self.take_byte(byte)?;
        }
        Ok(())
    }

    /// The shapes of all lines, where the bytes have ended.
    pub fn finish(mut self) -> Result<Vec<Shape<G>>, InputStop<u32>>
        requires { MayGoOn G.geometry self.shapes.items self.line }
        ensures ok { (before : List ℕ) (most : ℕ) → length before ≤ most
            → IsRead G.geometry before self.shapes.items self.line
            → IfOk result (λ shapes. AreGiven most G.geometry before shapes.items) }
        ensures stop { (before : List ℕ) (most : ℕ) → length before ≤ most
            → IsRead G.geometry before self.shapes.items self.line
            → IfErr result (IsWholeStop most G.geometry before) }
    {
        if self.line.has_begun() {
            self.end_line()?;
        }
        Ok(self.shapes)
    }

    /// The fault of a text that goes on behind the most bytes that are read.
    pub fn beyond(&self) -> InputStop<u32>
        ensures { (before : List ℕ) → IsRead G.geometry before self.now.shapes.items self.now.line
            → IsStopBeyond G.geometry before result }
    {
        if self.shapes.len() >= MOST_SHAPES {
            return self.fault(TOO_MANY_SHAPES);
        }
        self.fault(TOO_LONG)
    }

    /// Reads one more byte.
    fn take_byte(&mut self, byte: u8) -> Result<(), InputStop<u32>>
        requires { MayGoOn G.geometry self.old.shapes.items self.old.line }
        ensures ok { (before : List ℕ) → IsRead G.geometry before self.old.shapes.items self.old.line
            → IfOk result (λ _. IsRead G.geometry (before ++ byte ∷ []) self.new.shapes.items self.new.line) }
        ensures stop { (before : List ℕ) → IsRead G.geometry before self.old.shapes.items self.old.line
            → IfErr result (IsFrontStop G.geometry (before ++ byte ∷ [])) }
    {
        if self.shapes.len() >= MOST_SHAPES {
            return Err(self.fault(TOO_MANY_SHAPES));
        }
        if byte == b'\n' {
            return self.end_line();
        }
        match self.line.take(byte) {
            Ok(()) => Ok(()),
            Err(NoMemory) => Err(InputStop::NoMemory),
        }
    }

    /// Ends the line, and begins another.
    fn end_line(&mut self) -> Result<(), InputStop<u32>>
        requires { IsSomeLine self.old.line }
        ensures { (line : List ℕ) → IsScanned line self.old.line
            → EndsLine G.geometry line self.old.shapes.items self.new.shapes.items self.new.line result }
    {
        let line = replace(&mut self.line, ListLine::new(self.alloc));
        let cells = match line.finish() {
            Ok(cells) => cells,
            Err(LineFault::NotALine) => return Err(self.fault(NOT_TEXT)),
            Err(LineFault::NoMemory) => return Err(InputStop::NoMemory),
        };
        let shape = match canonical_of(cells.as_slice()) {
            Ok(shape) => shape,
            Err(fault) => return Err(self.fault(fault.number())),
        };
        if self.shapes.push(shape).is_err() {
            return Err(InputStop::NoMemory);
        }
        Ok(())
    }

    /// A fault of the line that didn't end.
    fn fault(&self, fault: u32) -> InputStop<u32>
        ensures { result ≡ InputStop.Fault (length self.now.shapes.items + 1) fault }
    {
        let line = self.shapes.len() as u64 + 1;
        InputStop::Fault { line, fault }
    }
}

/// The canonical form of the shape that has these cells, or why they are no shape. It takes no memory.
pub fn canonical_of<G: Grid>(cells: &[Cell]) -> Result<Shape<G>, ShapeFault>
    requires { AllByRecursion (IsWithin 100000) cells.now }
    ensures ok { IfOk result (IsCanonicalOf G.geometry cells.now) }
    ensures faultless { IfOk result (λ _. IsFaultless G.geometry cells.now) }
    ensures fault { IfErr result (IsFault G.geometry cells.now) }
{
    let shape = Shape::of(cells)?;
    Ok(shape.canonical())
}
