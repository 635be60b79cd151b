//! What certificates mean, each the contract of a function that does nothing.
ghost use Rattle.heesch_cert.specs.Statements.{ModelWhereCoronas, ModelsAreCoronas, RefutedMeansNone};
ghost use Rattle.heesch_cert.specs.Statements.{RefutedTorusMeansNoCover, TrueEntriesAreRight, PlainTilingsAreKept};
ghost use Rattle.heesch_cert.specs.Examples.{AreAsExpected};

/// The chosen layers of a model of the corona formula are coronas.
pub fn models_are_coronas()
    ensures { ModelsAreCoronas }
{}

/// The corona formula has a model exactly where coronas exist.
pub fn model_where_coronas()
    ensures { ModelWhereCoronas }
{}

/// A refutation with lawful cuts leaves no hole-free coronas, and one without cuts no coronas at all.
pub fn refuted_means_none()
    ensures { RefutedMeansNone }
{}

/// A log without given lines that refutes a torus formula leaves no periodic cover for the triple.
pub fn refuted_torus_means_no_cover()
    ensures { RefutedTorusMeansNoCover }
{}

/// The verdict of every true entry is right.
pub fn true_entries_are_right()
    ensures { TrueEntriesAreRight }
{}

/// A true entry of a shape whose plain tiling the limit on domains admits is a tiling of that kind, and never
/// undecided.
pub fn plain_tilings_are_kept()
    ensures { PlainTilingsAreKept }
{}

/// On the square grid the entry of the single square, which tiles by translations, is true under the default limits;
/// on the grid of triangles that of the single triangle, which is undecided by size, under the least limits.
pub fn small_entries_are_true()
    ensures { AreAsExpected }
{}
