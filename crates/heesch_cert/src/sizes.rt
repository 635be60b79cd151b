//! Which sizes a catalogue may be of.
ghost use Rattle.std.specs.Prelude.{◌≡◌, ◌↔◌, IsTrue};
ghost use Rattle.heesch_cert.specs.Sizes.{most_cells, HasGrid};

use heesch_cnf::Version;
use heesch_grid::GridName;

/// The greatest size of a catalogue of this version: the number of cells of its polyforms. It is 0 where the version
/// has no catalogue of the grid.
pub fn most_cells(version: Version, grid: GridName) -> u32
    ensures { result ≡ most_cells version grid }
{
    match (version, grid) {
        (Version::One, GridName::Square) => 12,
        (Version::One, GridName::Hex) => 10,
        (Version::One, GridName::Iamond) => 15,
        (Version::One, GridName::Kite) => 0,
        (Version::Two, GridName::Square) => 14,
        (Version::Two, GridName::Hex) => 12,
        (Version::Two, GridName::Iamond) => 18,
        (Version::Two, GridName::Kite) => 10,
    }
}

/// Whether there are catalogues of the grid in this version.
pub fn has_grid(version: Version, grid: GridName) -> bool
    ensures { IsTrue result ↔ HasGrid version grid }
{
    1 <= most_cells(version, grid)
}
