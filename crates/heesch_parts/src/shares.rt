//! The places of a list that a share of it has.
ghost use Rattle.std.specs.Prelude.{◌≡◌, ◌≤◌};
ghost use Rattle.heesch_parts.specs.Spans.{bound, span_of};

use crate::places::Span;

/// The most shares of a list.
pub const SHARES_MAX: u32 = 1000;

/// The places that share `i` of `k` has of a list of this length: from floor((i - 1) * length / k) up to below
/// floor(i * length / k). Condition: 1 <= i <= k <= 1,000. It takes no memory.
pub fn span(length: u32, i: u32, k: u32) -> Span
    requires first { 1 ≤ i }
    requires last { i ≤ k }
    requires most { k ≤ 1000 }
    ensures { result ≡ span_of length i k }
{
    Span {
        from: bound(length, i - 1, k),
        until: bound(length, i, k),
    }
}

/// Where share `i` of `k` ends.
fn bound(length: u32, i: u32, k: u32) -> u32
    requires some { 1 ≤ k }
    requires last { i ≤ k }
    ensures { result ≡ bound length i k }
{
    (u64::from(i) * u64::from(length) / u64::from(k)) as u32
}
