//! The words that name a grid, a subject, the kind of a tiling and the end of a search, read from the front of a text.
ghost use Rattle.std.specs.Prelude.{◌≡◌, ℕ, List, IfErr};
ghost use Rattle.heesch_line.specs.Reading.{Gives, version_at, grid_at, kind_at, phase_at, outcome_at};
ghost use Rattle.heesch_line.specs.Reading.{bare_outcome_at, subject_at};

use crate::LineFault;
use crate::fields::{after, literal, number};
use heesch_cert::{Kind, Phase, Subject, has_grid, most_cells};
use heesch_cnf::Version;
use heesch_grid::GridName;
use heesch_text::{BareOutcome, Outcome};

/// A grid by its name.
#[tactic(auto, unfolding(crate::specs::Reading::grid_at))]
pub fn grid(bytes: &[u8]) -> Result<(GridName, &[u8]), LineFault>
    ensures gives { Gives (λ x. (x.0, x.1.now)) result (grid_at bytes.now) }
    ensures err { IfErr result (λ e. e ≡ LineFault.NotALine) }
{
    if let Some(rest) = after(b"square", bytes) {
        return Ok((GridName::Square, rest));
    }
    if let Some(rest) = after(b"hex", bytes) {
        return Ok((GridName::Hex, rest));
    }
    if let Some(rest) = after(b"iamond", bytes) {
        return Ok((GridName::Iamond, rest));
    }
    let rest = literal(b"kite", bytes)?;
    Ok((GridName::Kite, rest))
}

/// The kind of a tiling.
#[tactic(auto, unfolding(crate::specs::Reading::kind_at))]
pub fn kind(bytes: &[u8]) -> Result<(Kind, &[u8]), LineFault>
    ensures gives { Gives (λ x. (x.0, x.1.now)) result (kind_at bytes.now) }
    ensures err { IfErr result (λ e. e ≡ LineFault.NotALine) }
{
    if let Some(rest) = after(b"translation", bytes) {
        return Ok((Kind::Translation, rest));
    }
    if let Some(rest) = after(b"halfturn", bytes) {
        return Ok((Kind::HalfTurn, rest));
    }
    let rest = literal(b"periodic", bytes)?;
    Ok((Kind::Periodic, rest))
}

/// The search that met a limit.
#[tactic(auto, unfolding(crate::specs::Reading::phase_at))]
pub fn phase(bytes: &[u8]) -> Result<(Phase, &[u8]), LineFault>
    ensures gives { Gives (λ x. (x.0, x.1.now)) result (phase_at bytes.now) }
    ensures err { IfErr result (λ e. e ≡ LineFault.NotALine) }
{
    if let Some(rest) = after(b"free", bytes) {
        return Ok((Phase::Free, rest));
    }
    let rest = literal(b"bare", bytes)?;
    Ok((Phase::Bare, rest))
}

/// How a search ended.
#[tactic(auto, unfolding(crate::specs::Reading::outcome_at))]
pub fn outcome(bytes: &[u8]) -> Result<(Outcome, &[u8]), LineFault>
    ensures gives { Gives (λ x. (x.0, x.1.now)) result (outcome_at bytes.now) }
    ensures err { IfErr result (λ e. e ≡ LineFault.NotALine) }
{
    if let Some(rest) = after(b"refuted", bytes) {
        return Ok((Outcome::Refuted, rest));
    }
    if let Some(rest) = after(b"spent", bytes) {
        return Ok((Outcome::Spent, rest));
    }
    let rest = literal(b"size", bytes)?;
    Ok((Outcome::Size, rest))
}

/// How a search with holes allowed ended.
#[tactic(auto, unfolding(crate::specs::Reading::bare_outcome_at))]
pub fn bare_outcome(bytes: &[u8]) -> Result<(BareOutcome, &[u8]), LineFault>
    ensures gives { Gives (λ x. (x.0, x.1.now)) result (bare_outcome_at bytes.now) }
    ensures err { IfErr result (λ e. e ≡ LineFault.NotALine) }
{
    if let Some(rest) = after(b"same", bytes) {
        return Ok((BareOutcome::Same, rest));
    }
    if let Some(rest) = after(b"open", bytes) {
        return Ok((BareOutcome::Open, rest));
    }
    let (outcome, rest) = outcome(bytes)?;
    Ok((BareOutcome::Searched { outcome }, rest))
}

/// The number of a version, between spaces.
#[tactic(auto, unfolding(crate::specs::Reading::version_at))]
pub fn version(bytes: &[u8]) -> Result<(Version, &[u8]), LineFault>
    ensures gives { Gives (λ x. (x.0, x.1.now)) result (version_at bytes.now) }
    ensures err { IfErr result (λ e. e ≡ LineFault.NotALine) }
{
    if let Some(rest) = after(b" 1 ", bytes) {
        return Ok((Version::One, rest));
    }
    let rest = literal(b" 2 ", bytes)?;
    Ok((Version::Two, rest))
}

/// The size of the grid's polyforms, in the range of the version, or `given`.
#[tactic(auto, unfolding(crate::specs::Reading::subject_at))]
pub fn subject(
    version: Version,
    grid: GridName,
    bytes: &[u8],
) -> Result<(Subject, &[u8]), LineFault>
    ensures gives { Gives (λ x. (x.0, x.1.now)) result (subject_at version grid bytes.now) }
    ensures err { IfErr result (λ e. e ≡ LineFault.NotALine) }
{
    if let Some(rest) = after(b"given", bytes) {
        if !has_grid(version, grid) {
            return Err(LineFault::NotALine);
        }
        return Ok((Subject::Given, rest));
    }
    let (n, rest) = number(bytes)?;
    if n == 0 || n > most_cells(version, grid) {
        return Err(LineFault::NotALine);
    }
    Ok((Subject::Size { n }, rest))
}
