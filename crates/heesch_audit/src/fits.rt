//! How a verdict that isn't a tiling fits the ends of its searches.
ghost use Rattle.std.specs.Prelude.{◌≡◌, ◌+◌, ◌≤◌, ◌↔◌, None, Some, IsTrue, length};
ghost use Rattle.heesch_cert.specs.declared.entry.Layers.{Layers as Found};
ghost use Rattle.heesch_cert.specs.TrueEntry.{IsBelow, IsWallRefuted, FitsVerdict};

use heesch_cert::{Bare, Layers, Limits, Phase, Verdict, Wall};

/// Whether there are wider layers, so many of them.
fn has_layers(wider: &Option<Layers>, count: u32) -> bool
    ensures { IsTrue result ↔ ((layers : Found) × (wider.now ≡ Some layers) × (length layers.layers ≡ count)) }
{
    match wider {
        None => false,
        Some(layers) => layers.layers.len() == count as usize,
    }
}

/// Whether level m lies above h and isn't above the limit.
fn is_level(limits: Limits, h: u32, m: u32) -> bool
    ensures { IsTrue result ↔ ((h + 1 ≤ m) × (m ≤ limits.levels)) }
{
    h < m && m <= limits.levels
}

/// Whether level m is the next one after h, and isn't above the limit.
fn is_next(limits: Limits, h: u32, m: u32) -> bool
    ensures { IsTrue result ↔ ((m ≡ h + 1) × (m ≤ limits.levels)) }
{
    h < m && m - h == 1 && m <= limits.levels
}

/// Whether there are m - 1 wider layers, or none where m is h + 1. Level m lies above h.
fn is_below(h: u32, m: u32, wider: &Option<Layers>) -> bool
    requires { h + 1 ≤ m }
    ensures { IsTrue result ↔ IsBelow h m wider.now }
{
    match wider {
        None => m - h == 1,
        Some(layers) => m - h != 1 && layers.layers.len() == m as usize - 1,
    }
}

/// Whether the ends fit a search that was not made, or that met a limit, with holes forbidden.
fn fits_free(wall_fits: bool, bare: &Bare, wider: &Option<Layers>) -> bool
    ensures { IsTrue result ↔ (IsTrue wall_fits × (bare.now ≡ Bare.Absent) × (wider.now ≡ None)) }
{
    wall_fits && matches!(bare, Bare::Absent) && wider.is_none()
}

/// Whether the ends fit Heesch number h and m as the least number of coronas that there aren't.
fn fits_heesch(
    limits: Limits,
    wall: &Wall,
    bare: &Bare,
    wider: &Option<Layers>,
    h: u32,
    m: u32,
) -> bool
    ensures { IsTrue result ↔ FitsVerdict limits wall.now bare.now wider.now (Verdict.Heesch h m) }
{
    if !is_level(limits, h, m) || !matches!(wall, Wall::Refuted { .. }) {
        return false;
    }
    match bare {
        Bare::Same => m - h == 1 && wider.is_none(),
        Bare::Refuted { .. } => is_below(h, m, wider),
        _ => false,
    }
}

/// Whether the ends fit a search with holes allowed that met a limit at level m.
fn fits_bare(
    limits: Limits,
    wall: &Wall,
    bare_fits: bool,
    wider: &Option<Layers>,
    h: u32,
    m: u32,
) -> bool
    ensures { IsTrue result
        ↔ ((h + 1 ≤ m) × (m ≤ limits.levels) × IsWallRefuted wall.now × IsTrue bare_fits × IsBelow h m wider.now) }
{
    is_level(limits, h, m)
        && matches!(wall, Wall::Refuted { .. })
        && bare_fits
        && is_below(h, m, wider)
}

/// Whether the ends fit as many coronas with holes as the limit.
fn fits_holes(limits: Limits, wall: &Wall, bare: &Bare, wider: &Option<Layers>, h: u32) -> bool
    ensures { IsTrue result ↔ FitsVerdict limits wall.now bare.now wider.now (Verdict.Holes h) }
{
    h < limits.levels
        && matches!(wall, Wall::Refuted { .. })
        && matches!(bare, Bare::Open)
        && has_layers(wider, limits.levels)
}

/// Whether the numbers of the verdict, and how its searches ended, fit one another.
pub(crate) fn fits_verdict(
    limits: Limits,
    wall: &Wall,
    bare: &Bare,
    wider: &Option<Layers>,
    verdict: Verdict,
) -> bool
    ensures { IsTrue result ↔ FitsVerdict limits wall.now bare.now wider.now verdict }
{
    match verdict {
        Verdict::Tiles { .. } => false,
        Verdict::Heesch { h, m } => fits_heesch(limits, wall, bare, wider, h, m),
        Verdict::Levels { h } => {
            h == limits.levels && fits_free(matches!(wall, Wall::Absent), bare, wider)
        }
        Verdict::Holes { h } => fits_holes(limits, wall, bare, wider, h),
        Verdict::Turns { h, phase, at } => match phase {
            Phase::Free => is_next(limits, h, at)
                && fits_free(matches!(wall, Wall::Spent { .. }), bare, wider),
            Phase::Bare => fits_bare(
                limits,
                wall,
                matches!(bare, Bare::Spent { .. }),
                wider,
                h,
                at,
            ),
        },
        Verdict::Size { h, phase, at } => match phase {
            Phase::Free => is_next(limits, h, at)
                && fits_free(matches!(wall, Wall::Size), bare, wider),
            Phase::Bare => fits_bare(limits, wall, matches!(bare, Bare::Size), wider, h, at),
        },
    }
}
