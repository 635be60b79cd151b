//! Rows of bits, 64 in a word.
ghost use Rattle.std.specs.Prelude.{◌≡◌, ◌≢◌, ◌<◌, ◌≤◌, ◌+◌, ◌*◌, ◌-◌, ◌==◌, ℕ, true, false, length, max, min, sum};
ghost use Rattle.std.specs.Prelude.{slice_index};
ghost use Rattle.std.specs.Int.{bit_at};
ghost use Rattle.heesch_region.specs.Bits.{bit_of, AreNarrowed, AreSettled};

/// Whether the bit of this number is set.
pub(crate) fn has_bit(words: &[u64], number: usize) -> bool
    requires { number < 64 * length words.now }
    ensures { result ≡ (bit_of words.now number == 1) }
{
    (words[number / 64] >> (number % 64)) & 1 == 1
}

/// Sets the bit of this number.
pub(crate) fn set_bit(words: &mut [u64], number: usize)
    requires { number < 64 * length words.old }
    ensures here { bit_of words.new number ≡ 1 }
    ensures other { (n : ℕ) → n ≢ number → bit_of words.new n ≡ bit_of words.old n }
{
    words[number / 64] |= 1 << (number % 64);
}

/// The bits of `low` from this one on, and behind them the first of `high`.
fn joined(low: u64, high: u64, from: usize) -> u64
    requires { from < 64 }
    ensures low { (j : ℕ) → from + j < 64 → bit_at result j ≡ bit_at low (from + j) }
    ensures high { (j : ℕ) → j < 64 → 64 ≤ from + j → bit_at result j ≡ bit_at high (from + j - 64) }
{
    if from == 0 {
        return low;
    }
    (low >> from) | (high << (64 - from))
}

/// The 64 bits from this number on.
fn word_from(words: &[u64], from: usize) -> u64
    requires { from + 64 < 64 * length words.now }
    ensures { (j : ℕ) → j < 64 → bit_at result j ≡ bit_of words.now (from + j) }
{
    joined(words[from / 64], words[from / 64 + 1], from % 64)
}

/// Clears those bits of a word that are neither allowed nor stand over a set bit, where the first stands over bit
/// `from`. Answers whether a bit was cleared.
fn narrow_word(words: &mut [u64], allowed: u64, at: usize, from: usize) -> bool
    requires at { at < length words.old }
    requires from { from + 64 < 64 * length words.old }
    ensures here { (j : ℕ) → j < 64 → bit_of words.new (64 * at + j)
        ≡ min (bit_of words.old (64 * at + j)) (max (bit_at allowed j) (bit_of words.old (from + j))) }
    ensures other { (k : ℕ) → k ≢ at → slice_index words.new k ≡ slice_index words.old k }
    ensures fewer { result ≡ true → sum words.new < sum words.old }
    ensures same { result ≡ false → words.new ≡ words.old }
{
    let old = words[at];
    let new = old & (allowed | word_from(words, from));
    if new == old {
        return false;
    }
    words[at] = new;
    true
}

/// Clears the bits of a row of words that are neither allowed nor stand over a set bit, where the first stands over
/// bit `from`. Answers whether a bit was cleared.
pub(crate) fn narrow(
    words: &mut [u64],
    allowed: &[u64],
    to: usize,
    from: usize,
    count: usize,
) -> bool
    requires long { length allowed.now ≡ length words.old }
    requires to { to + count ≤ length words.old }
    requires from { from + 64 * count < 64 * length words.old }
    requires few { length words.old ≤ 10000000 }
    ensures bits { AreNarrowed allowed.now to from count words.old words.new }
    ensures fewer { result ≡ true → sum words.new < sum words.old }
    ensures same { result ≡ false → words.new ≡ words.old }
    ensures settled { result ≡ false → AreSettled allowed.now words.old to from (64 * count) }
{
    let mut cleared = false;
    for k in 0..count {
        cleared |= narrow_word(words, allowed[to + k], to + k, from + 64 * k);
    }
    cleared
}

/// Whether the words with these numbers have no bit but those of `taken`.
pub(crate) fn are_clear(words: &[u64], taken: &[u64], from: usize, to: usize) -> bool
    requires long { length taken.now ≡ length words.now }
    requires order { from ≤ to }
    requires end { to ≤ length words.now }
    ensures { result ≡ true → (n : ℕ) → 64 * from ≤ n → n < 64 * to → bit_of words.now n ≡ 1 → bit_of taken.now n ≡ 1 }
{
    for k in from..to {
        if words[k] & !taken[k] != 0 {
            return false;
        }
    }
    true
}
