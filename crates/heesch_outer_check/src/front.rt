//! A word, and a line of a label and a number, at the front of bytes.
ghost use Rattle.std.specs.Prelude.{◌≡◌, ◌≢◌, ◌++◌, ℕ, List, MatchOption};
ghost use Rattle.heesch_outer.specs.Record.{number_line};

use itoa::Buffer;

/// The bytes behind the word, where it stands at the front.
pub fn after<'a>(word: &[u8], bytes: &'a [u8]) -> Option<&'a [u8]>
    ensures { MatchOption result ((rest : List ℕ) → bytes.now ≢ word.now ++ rest)
        (λ rest. bytes.now ≡ word.now ++ rest.now) }
{
    bytes.strip_prefix(word)
}

/// The bytes behind a line of the label and the number, where it stands at the front.
pub fn after_number<'a>(label: &[u8], number: u64, bytes: &'a [u8]) -> Option<&'a [u8]>
    ensures { MatchOption result ((rest : List ℕ) → bytes.now ≢ number_line label.now number ++ rest)
        (λ rest. bytes.now ≡ number_line label.now number ++ rest.now) }
{
    let rest = after(label, bytes)?;
    let rest = after(Buffer::new().format(number).as_bytes(), rest)?;
    after(b"\n", rest)
}
