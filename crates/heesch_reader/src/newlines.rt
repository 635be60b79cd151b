//! The newlines among bytes.
ghost use Rattle.std.specs.Prelude.{◌≡◌};
ghost use Rattle.heesch_reader.specs.Input.{newlines};

use memchr::memchr_iter;

/// The number of newlines.
pub fn newlines(bytes: &[u8]) -> u64
    ensures { result ≡ newlines bytes.now }
{
    Iterator::count(memchr_iter(b'\n', bytes)) as u64
}
