//! What growing gives, each law as the contract of a function that does nothing.
ghost use Rattle.heesch_grow.specs.Adds.{FreeListsGrow};
ghost use Rattle.heesch_grow.specs.First.{FirstIsFreeList};
ghost use Rattle.heesch_grow.specs.Generator.{GrownAreDetermined, GrownArePolyforms, SomeCellIsBeside};

/// Where the parents are the free list of a size, their children are the free list of the next.
pub fn free_lists_grow()
    ensures { FreeListsGrow }
{}

/// A free polyform of one cell is alone in the free list of that size.
pub fn first_is_free_list()
    ensures { FirstIsFreeList }
{}

/// A cell lies beside every polyform, so a draw always has one to choose.
pub fn some_cell_is_beside()
    ensures { SomeCellIsBeside }
{}

/// What so many draws give is a polyform of one cell more.
pub fn grown_are_polyforms()
    ensures { GrownArePolyforms }
{}

/// What so many draws from a seed give is one list of cells.
pub fn grown_are_determined()
    ensures { GrownAreDetermined }
{}
