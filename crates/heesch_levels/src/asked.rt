//! What is asked of a model: that it leaves no hole up to some level.
ghost use Rattle.std.specs.Prelude.{◌≡◌, ◌≤◌, length, IfOk, MatchOption};
ghost use Rattle.heesch_grid.specs.Polyform.{IsCanonicalListOf};
ghost use Rattle.heesch_cuts.specs.Chosen.{CutsOff};
ghost use Rattle.heesch_place.specs.Universes.{IsUniverseOf};
ghost use Rattle.heesch_levels.specs.Searching.{IsAsked, IsCutUpTo, IsFreeUpTo, IsInside};

use heesch_cert::Cut;
use heesch_cuts::cut_for;
use heesch_grid::Grid;
use heesch_io::NoMemory;
use heesch_place::Universe;
use heesch_shape::Shape;
use std::alloc::Global;

/// The variables of a formula, up to which level holes are forbidden, and the universe of these levels where they are
/// some and not all.
#[derive(Drop)]
pub struct Asked<G: Grid> {
    pub universe: Universe<G>,
    pub free_levels: u32,
    pub inner: Option<Universe<G>>,
}

/// The universe of the levels without holes, where they are some and not all.
fn universe_inside<G: Grid>(
    alloc: Global,
    shape: &Shape<G>,
    universe: &Universe<G>,
    free_levels: u32,
) -> Result<Option<Universe<G>>, NoMemory>
    requires shape { universe.now.shape ≡ shape.now }
    requires canonical { IsCanonicalListOf G.geometry shape.now shape.now }
    requires levels { free_levels ≤ universe.now.level }
    ensures { IfOk result (IsInside G.geometry universe.now free_levels) }
{
    if free_levels == 0 || free_levels == universe.level() {
        return Ok(None);
    }
    Ok(Some(Universe::of(alloc, shape, free_levels)?))
}

impl<G: Grid> Asked<G> {
    /// That models over the universe leave no hole at the levels from 1 to this one.
    pub fn of(
        alloc: Global,
        shape: &Shape<G>,
        universe: Universe<G>,
        free_levels: u32,
    ) -> Result<Asked<G>, NoMemory>
        requires shape { universe.shape ≡ shape.now }
        requires canonical { IsCanonicalListOf G.geometry shape.now shape.now }
        requires universe { IsUniverseOf G.geometry universe }
        requires levels { free_levels ≤ universe.level }
        ensures asked { IfOk result (λ a. IsAsked G.geometry shape.now a.universe a.free_levels a.inner) }
        ensures universe { IfOk result (λ a. a.universe ≡ universe) }
        ensures levels { IfOk result (λ a. a.free_levels ≡ free_levels) }
    {
        let inner = universe_inside(alloc, shape, &universe, free_levels)?;
        Ok(Asked {
            universe,
            free_levels,
            inner,
        })
    }

    /// A cut against a hole that the placements of a model enclose up to that level, or none exactly where they
    /// enclose none.
    pub fn cut(
        &self,
        alloc: Global,
        shape: &Shape<G>,
        values: &[bool],
    ) -> Result<Option<Cut>, NoMemory>
        requires asked { IsAsked G.geometry shape.now self.now.universe self.now.free_levels self.now.inner }
        requires values { length self.now.universe.vars ≤ length values.now }
        ensures { IfOk result
            (λ cut. MatchOption cut (IsFreeUpTo G.geometry self.now.universe self.now.free_levels values.now)
            (λ cut. CutsOff G.geometry self.now.universe values.now cut
            × IsCutUpTo G.geometry self.now.universe self.now.free_levels cut)) }
    {
        if self.free_levels == 0 {
            return Ok(None);
        }
        match &self.inner {
            None => cut_for(alloc, shape, &self.universe, values),
            Some(inner) => cut_for(alloc, shape, inner, values),
        }
    }
}
