//! Part 2, the form.
ghost use Rattle.std.specs.Prelude.{◌≡◌, ◌≢◌, ◌*◌, ◌≤◌, ◌↔◌, None, [], ◌∷◌, IsTrue, length};
ghost use Rattle.heesch_grid.specs.Tiling.{IsPlain, no_move, half_turned};
ghost use Rattle.heesch_tiling.specs.PlainAnswer.{answered};
ghost use Rattle.heesch_cert.specs.Limits.{AreLimits};
ghost use Rattle.heesch_cert.specs.TrueEntry.{HasNoPlain, IsOfKind, FitsVerdict, FormFits};
ghost use Rattle.heesch_cert.specs.declared.tiling.Classes.{Classes as Written};
ghost use Rattle.heesch_audit.specs.Shapes.{IsCanonicalShape};
ghost use Rattle.heesch_audit.specs.Plains.{IsNoneAdmitted, IsByTranslation, IsByHalfTurn};

use crate::audited::Audited;
use crate::fits::fits_verdict;
use heesch_cert::{Bare, Evidence, Kind, Layers, Limits, Tiling, Verdict, Wall};
use heesch_grid::{Grid, Iso, Sizes};
use heesch_lattice::Triple;
use heesch_shape::Shape;
use heesch_tiling::{Plain, plain};

/// The isometry that moves nothing.
const NO_MOVE: Iso = Iso {
    turn: 0,
    da: 0,
    db: 0,
};

/// Whether there is one place, which is not moved.
fn is_one_place(places: &[Iso]) -> bool
    ensures { IsTrue result ↔ (places.now ≡ no_move ∷ []) }
{
    places.len() == 1 && places[0] == NO_MOVE
}

/// Whether there are two places: one that is not moved, and the half-turn, moved by (da, db).
fn are_two_places<G: Grid>(places: &[Iso], da: i32, db: i32) -> bool
    ensures { IsTrue result ↔ (places.now ≡ no_move ∷ half_turned G.geometry da db ∷ []) }
{
    let turned = Iso {
        turn: G::HALF_TURN,
        da,
        db,
    };
    places.len() == 2 && places[0] == NO_MOVE && places[1] == turned
}

/// Whether no plain tiling is admitted, where this is the shape's.
fn is_none_admitted(limits: Limits, found: &Option<Plain>) -> bool
    ensures { IsTrue result ↔ IsNoneAdmitted limits (answered found.now) }
{
    match found {
        None => true,
        Some(Plain::Translation { .. }) => false,
        Some(Plain::HalfTurn { .. }) => limits.domain < 2,
    }
}

/// Whether the plain tiling is by translations, and the tiling is written so.
fn is_by_translation(tiling: &Tiling, found: &Option<Plain>) -> bool
    ensures { IsTrue result ↔ IsByTranslation tiling.now (answered found.now) }
{
    match found {
        None | Some(Plain::HalfTurn { .. }) => false,
        Some(Plain::Translation { triple }) => {
            *triple == tiling.triple && is_one_place(tiling.places.as_slice())
        }
    }
}

/// Whether the plain tiling is by half-turns and admitted, and the tiling is written so.
fn is_by_half_turn<G: Grid>(limits: Limits, tiling: &Tiling, found: &Option<Plain>) -> bool
    ensures { IsTrue result ↔ IsByHalfTurn G.geometry limits tiling.now (answered found.now) }
{
    match found {
        None | Some(Plain::Translation { .. }) => false,
        Some(Plain::HalfTurn { triple, da, db }) => {
            limits.domain >= 2
                && *triple == tiling.triple
                && are_two_places::<G>(tiling.places.as_slice(), *da, *db)
        }
    }
}

/// Whether no plain tiling is admitted, and there are two places or more.
fn is_periodic(limits: Limits, tiling: &Tiling, found: &Option<Plain>) -> bool
    ensures { IsTrue result ↔ (IsNoneAdmitted limits (answered found.now) × (2 ≤ length tiling.now.places)) }
{
    is_none_admitted(limits, found) && tiling.places.len() >= 2
}

/// Whether the tiling is of this kind, and written as the kind asks: the plain tiling is sought anew.
fn is_of_kind<G: Grid>(shape: &Shape<G>, limits: Limits, tiling: &Tiling, kind: Kind) -> bool
    requires { IsCanonicalShape G.geometry shape.now }
    ensures { IsTrue result ↔ IsOfKind G.geometry limits shape.now tiling.now kind }
{
    let found = plain(shape);
    match kind {
        Kind::Translation => is_by_translation(tiling, &found),
        Kind::HalfTurn => is_by_half_turn::<G>(limits, tiling, &found),
        Kind::Periodic => is_periodic(limits, tiling, &found),
    }
}

/// Whether so many tiles are the domain of the triple, and within the limit.
fn is_domain<G: Grid>(shape: &Shape<G>, limits: Limits, tiling: &Tiling, domain: u32) -> bool
    requires { AreLimits limits }
    ensures { IsTrue result
        ↔ ((domain ≡ length tiling.now.places)
        × (G.geometry.per * (tiling.now.triple.p * tiling.now.triple.q) ≡ length shape.now * domain)
        × (domain ≤ limits.domain)) }
{
    if tiling.places.len() != domain as usize || domain > limits.domain {
        return false;
    }
    let Triple { p, q, .. } = tiling.triple;
    G::PER * (p * q) == shape.cells().len() as u32 * domain
}

/// Whether the tiling has this domain and is of this kind.
fn tiling_fits<G: Grid>(
    shape: &Shape<G>,
    limits: Limits,
    tiling: &Tiling,
    kind: Kind,
    domain: u32,
) -> bool
    requires shape { IsCanonicalShape G.geometry shape.now }
    requires limits { AreLimits limits }
    ensures { IsTrue result
        ↔ ((domain ≡ length tiling.now.places)
        × (G.geometry.per * (tiling.now.triple.p * tiling.now.triple.q) ≡ length shape.now * domain)
        × (domain ≤ limits.domain) × IsOfKind G.geometry limits shape.now tiling.now kind) }
{
    is_domain(shape, limits, tiling, domain) && is_of_kind(shape, limits, tiling, kind)
}

/// Whether the verdict is a tiling, which has the domain and the kind that it says.
fn cover_fits<G: Grid>(shape: &Shape<G>, limits: Limits, verdict: Verdict, tiling: &Tiling) -> bool
    requires shape { IsCanonicalShape G.geometry shape.now }
    requires limits { AreLimits limits }
    ensures { (classes : Written) → IsTrue result
        ↔ FormFits G.geometry limits shape.now verdict (Evidence.Cover tiling.now classes) }
{
    match verdict {
        Verdict::Tiles { kind, domain, .. } => tiling_fits(shape, limits, tiling, kind, domain),
        _ => false,
    }
}

/// Whether the verdict fits how the searches ended, and no plain tiling is admitted.
fn search_fits<G: Grid>(
    shape: &Shape<G>,
    limits: Limits,
    verdict: Verdict,
    wall: &Wall,
    bare: &Bare,
    wider: &Option<Layers>,
) -> bool
    requires { IsCanonicalShape G.geometry shape.now }
    ensures { IsTrue result
        ↔ (HasNoPlain G.geometry limits shape.now × FitsVerdict limits wall.now bare.now wider.now verdict) }
{
    if !fits_verdict(limits, wall, bare, wider, verdict) {
        return false;
    }
    is_none_admitted(limits, &plain(shape))
}

impl<'a, G: Grid> Audited<'a, G> {
    /// Whether the verdict fits its evidence, and a plain tiling that the limit on domains admits is the verdict.
    pub(crate) fn form_fits(&self) -> bool
        requires shape { IsCanonicalShape G.geometry self.now.shape.now }
        requires limits { AreLimits self.now.limits }
        ensures { IsTrue result
            ↔ FormFits G.geometry self.now.limits self.now.shape.now self.now.entry.now.verdict self.now.entry.now.evidence }
    {
        let (shape, limits, verdict) = (self.shape, self.limits, self.entry.verdict);
        match &self.entry.evidence {
            Evidence::Cover { tiling, .. } => cover_fits(shape, limits, verdict, tiling),
            Evidence::Search {
                wall,
                bare,
                wider,
                ..
            } => search_fits(shape, limits, verdict, wall, bare, wider),
        }
    }
}
