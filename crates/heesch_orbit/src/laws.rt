//! Theorems about symmetries, each the contract of a function that does nothing.
ghost use Rattle.heesch_orbit.specs.Statements.{InversesAreSymmetries, ClassesGoBothWays, ClassesTakeExactly};
ghost use Rattle.heesch_orbit.specs.Statements.{PlacesDecideSymmetries};

/// What undoes a symmetry is a symmetry.
pub fn inverses_are_symmetries()
    ensures { InversesAreSymmetries }
{}

/// Being in one class goes both ways.
pub fn classes_go_both_ways()
    ensures { ClassesGoBothWays }
{}

/// Two tiles are in one class exactly where a symmetry takes one exactly to the other.
pub fn classes_take_exactly()
    ensures { ClassesTakeExactly }
{}

/// An isometry is a symmetry exactly where it carries each tile to a translate of a tile, and the
/// two vectors of the lattice, under its turn, do so too. It need not carry the lattice into itself.
pub fn places_decide_symmetries()
    ensures { PlacesDecideSymmetries }
{}
