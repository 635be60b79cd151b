//! The theorems about the definitions, each the contract of a function that does nothing.
//!
//! They hold for every grid that keeps the laws of [`crate::Grid`], and name none.
ghost use Rattle.heesch_grid.specs.Geometry.{Geometry, IsGrid};
ghost use Rattle.heesch_grid.specs.Statements.{
  CoronasAreModelsOfVersions,
  GrowthLaw,
  GrowthOfFreeLists,
  ModelsAreCoronas,
  ModelsOfVersionsAreCoronas,
  NonTilersDoNotTile,
  OwnersKeepModels,
  SatisfiableWhereCoronas,
  SatisfiableWhereCover,
  TilersHaveWindowCovers,
  UniverseClausesAgree,
  VersionsAreSatisfiableWhereCoronas,
  WindowCoversHaveCoronas,
};
ghost use Rattle.heesch_grid.specs.Facts.{
  CellsHaveOneReducedCell,
  CoronaFormulasAreUnique,
  FewerCoronasExist,
  FormulasOfVersionsAreUnique,
  FreeListsAreUnique,
  GreatestHolesAreHoles,
  HeeschNumbersAreUnique,
  HeeschNumbersLieBelow,
  ImagesShareCanonicalLists,
  LeastIsometriesAreUnique,
  PlacementsTouchBothWays,
  PlainTilingsAreUnique,
  PolyformsHaveOneCanonicalList,
  SymmetriesCompose,
  TilersAreNeverRefuted,
  TorusFormulasAreUnique,
  TranslationsAreDetermined,
  WindowCoversShrink,
};
ghost use Rattle.heesch_grid.specs.Examples.{AreAsExpected};

/// A polyform of at least two cells has a cell whose removal leaves a polyform.
pub fn growth()
    ensures { (g : Geometry) → IsGrid g → GrowthLaw g }
{}

/// The free polyforms of n + 1 cells are the canonical lists of those of n cells with one adjacent cell added.
pub fn growth_of_free_lists()
    ensures { GrowthOfFreeLists }
{}

/// A polyform has exactly one canonical list, and two polyforms have the same one exactly where
/// one is an image of the other. So the free list of a size is one list.
pub fn canonical_lists_stand_for_polyforms()
    ensures once { PolyformsHaveOneCanonicalList }
    ensures same { ImagesShareCanonicalLists }
    ensures free { FreeListsAreUnique }
{}

/// The greatest hole of a set is one list: empty exactly where the set is hole-free, and a hole
/// otherwise.
pub fn greatest_holes_are_holes()
    ensures { GreatestHolesAreHoles }
{}

/// Where a placement touches another, that one touches it. For one turn the translation of a
/// placement is determined, so a placement has at most one least isometry.
pub fn placements_are_exact()
    ensures touch { PlacementsTouchBothWays }
    ensures translation { TranslationsAreDetermined }
    ensures least { LeastIsometriesAreUnique }
{}

/// A shape with k coronas has fewer too, so it has at most one Heesch number, which is below each
/// m at which the shape is a non-tiler.
pub fn heesch_numbers_are_unique()
    ensures fewer { FewerCoronasExist }
    ensures once { HeeschNumbersAreUnique }
    ensures below { HeeschNumbersLieBelow }
{}

/// A cell differs by a lattice vector from exactly one reduced cell.
pub fn cells_have_one_reduced_cell()
    ensures { CellsHaveOneReducedCell }
{}

/// Symmetries of a cover compose, and being in one class goes through a third tile.
pub fn symmetries_compose()
    ensures { SymmetriesCompose }
{}

/// The first plain tiling is a function of the shape.
pub fn plain_tilings_are_unique()
    ensures { PlainTilingsAreUnique }
{}

/// The corona formula, of each version, and the torus formula are functions of the shape, and of the
/// level or the triple: their variables and clauses are determined, with their numbers.
pub fn formulas_are_unique<L>()
    ensures corona { CoronaFormulasAreUnique L }
    ensures versions { FormulasOfVersionsAreUnique L }
    ensures torus { TorusFormulasAreUnique L }
{}

/// The corona formula is satisfiable exactly where coronas exist, whatever stands for its literals.
pub fn satisfiable_where_coronas<L>()
    ensures { SatisfiableWhereCoronas L }
{}

/// The torus formula of a triple is satisfiable exactly where a periodic cover for it exists.
pub fn satisfiable_where_cover<L>()
    ensures { SatisfiableWhereCover L }
{}

/// The chosen layers of a model are coronas.
pub fn models_are_coronas<L>()
    ensures { ModelsAreCoronas L }
{}

/// The corona formula of either version is satisfiable exactly where coronas exist.
pub fn versions_are_satisfiable_where_coronas<L>()
    ensures { VersionsAreSatisfiableWhereCoronas L }
{}

/// The chosen layers of a model of either version are coronas.
pub fn models_of_versions_are_coronas<L>()
    ensures { ModelsOfVersionsAreCoronas L }
{}

/// Coronas, hole-free or not, are what some model of either version gives the variables of the
/// universe.
pub fn coronas_are_models_of_versions<L>()
    ensures { CoronasAreModelsOfVersions L }
{}

/// The models of the first version are the models of the second, seen at the variables of the
/// universe; and a clause of these variables, as that of a cut, sees no more.
pub fn owners_keep_models<L>()
    ensures models { OwnersKeepModels L }
    ensures clauses { UniverseClausesAgree L }
{}

/// A periodic cover gives window covers of every radius.
pub fn tilers_have_window_covers()
    ensures { TilersHaveWindowCovers }
{}

/// A window cover of a large enough radius gives coronas.
pub fn window_covers_have_coronas()
    ensures { WindowCoversHaveCoronas }
{}

/// A window cover of a radius is one of each smaller radius.
pub fn window_covers_shrink()
    ensures { WindowCoversShrink }
{}

/// A polyform that tiles has coronas of every number, and it isn't one that doesn't tile.
pub fn tilers_are_never_refuted()
    ensures { TilersAreNeverRefuted }
{}

/// A non-tiler doesn't tile.
pub fn non_tilers_do_not_tile()
    ensures { NonTilersDoNotTile }
{}

/// On the square grid three squares round a corner are a polyform, two that share one corner alone
/// are none, the seven squares round a gap have it as a hole, and one square tiles by translations.
pub fn small_shapes_are_as_expected()
    ensures { AreAsExpected }
{}
