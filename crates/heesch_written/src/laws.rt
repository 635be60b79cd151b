//! Laws of what true entries name and of their lines, each the contract of a function that does nothing.
ghost use Rattle.heesch_written.specs.Near.{ShapesAreNear, CoronasAreNear, HolesAreNear, ClassesAreNear};
ghost use Rattle.heesch_written.specs.Statements.{TrueEntriesHaveBriefLines, TrueEntriesHaveLines};

/// The cells of a free polyform of at most 32 cells lie near 0.
pub fn shapes_are_near()
    ensures { ShapesAreNear }
{}

/// So do the places that spell at most six coronas of it.
pub fn coronas_are_near()
    ensures { CoronasAreNear }
{}

/// And the cells of a lawful cut's hole.
pub fn holes_are_near()
    ensures { HolesAreNear }
{}

/// And the symmetries that take the tiles of a reduced cover to each other.
pub fn classes_are_near()
    ensures { ClassesAreNear }
{}

/// The lines of a true entry whose cover is reduced, and whose numbers fit 32 bits, have the forms of a catalogue's
/// lines.
pub fn true_entries_have_lines()
    ensures { TrueEntriesHaveLines }
{}

/// The lines that a true entry has in a brief text have these forms.
pub fn true_entries_have_brief_lines()
    ensures { TrueEntriesHaveBriefLines }
{}
