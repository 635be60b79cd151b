//! What turned lattices have in common, each the contract of a function that does nothing.
ghost use Rattle.heesch_lattice.specs.Turned.{CoversTurn};

/// Where a turn carries one lattice onto another, a shape that has a cover by the one has one by the other.
pub fn covers_turn()
    ensures { CoversTurn }
{}
