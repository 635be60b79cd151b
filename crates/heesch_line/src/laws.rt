//! Laws of the words of lines, and of the text of a list.
ghost use Rattle.std.specs.Prelude.{◌≡◌, ◌↔◌, ◌≤◌, ℕ, List, Option, codes, length};
ghost use Rattle.std.specs.List.{AllByRecursion};
ghost use Rattle.heesch_grid.specs.declared.Cell.{Cell};
ghost use Rattle.heesch_text.specs.declared.line.Line.{Line};
ghost use Rattle.heesch_text.specs.Lines.{words_of};
ghost use Rattle.heesch_text.specs.Shapes.{list_text};
ghost use Rattle.heesch_line.specs.declared.list.ListStop.{ListStop};
ghost use Rattle.heesch_line.specs.Forms.{IsLine, HasNoNewline, BeginsWith, IsShape, IsEnd};
ghost use Rattle.heesch_line.specs.Lists.{AreCells, AreRead, IsListText};

/// Two lines of these forms with the same words are the same line.
pub fn words_tell_the_line()
    ensures { (line other : Line) → IsLine line → IsLine other → words_of line ≡ words_of other → line ≡ other }
{}

/// The words of a line have no newline.
pub fn words_have_no_newline()
    ensures { (line : Line) → IsLine line → HasNoNewline (words_of line) }
{}

/// The words of a line begin with `shape ` exactly where it is a shape's line, and with `end ` exactly where it is the
/// last line of a catalogue.
pub fn first_words_tell_the_kind()
    ensures shape { (line : Line) → BeginsWith (codes "shape ") (words_of line) ↔ IsShape line }
    ensures end { (line : Line) → BeginsWith (codes "end ") (words_of line) ↔ IsEnd line }
{}

/// A text gives one list of shapes, with one fault or none.
pub fn a_text_gives_one_list()
    ensures { (text : List ℕ) (first second : List (List Cell)) (stop other : Option ListStop)
        → AreRead text first stop → AreRead text second other → (first ≡ second) × (stop ≡ other) }
{}

/// A list that was written is read.
pub fn a_written_list_is_read()
    ensures { (shapes : List (List Cell)) → AllByRecursion AreCells shapes → length shapes ≤ 10000
        → IsListText (list_text shapes) shapes }
{}
