//! What the rules of the check mean, each the contract of a function that does nothing.
ghost use Rattle.heesch_corona.specs.Statements.{RulesMakeCoronas, RulesMakeHoleFreeCoronas, TilesAreUnique};

/// Layers of placements, of which no two meet, each touches the patch before its layer, and which cover all cells
/// around each patch, are coronas, and the other way round; hole-free ones exactly where no patch has a hole.
pub fn rules_make_coronas()
    ensures coronas { RulesMakeCoronas }
    ensures hole_free { RulesMakeHoleFreeCoronas }
{}

/// The tiles that layers of isometries give are determined.
pub fn tiles_are_unique()
    ensures { TilesAreUnique }
{}
