//! Numbers that words write.
ghost use Rattle.std.specs.Prelude.{◌≡◌, ◌≢◌, ◌≤◌, ℕ, decimal, IfOk, OnErr};

use crate::Usage;
use itoa::Buffer;

/// The number from `least` to `most` that a word writes in decimal digits, without a sign or a
/// leading zero.
pub fn number(word: &str, least: u64, most: u64) -> Result<u64, Usage>
    ensures ok { IfOk result (λ n. (word.now ≡ decimal n) × (least ≤ n) × (n ≤ most)) }
    ensures usage { OnErr result ((n : ℕ) → least ≤ n → n ≤ most → word.now ≢ decimal n) }
{
    let mut buffer = Buffer::new();
    match word.parse::<u64>() {
        Ok(n) if least <= n && n <= most && buffer.format(n) == word => Ok(n),
        _ => Err(Usage),
    }
}
