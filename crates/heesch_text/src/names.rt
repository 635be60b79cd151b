//! The words that name the kind of a tiling and the search that met a limit.
ghost use Rattle.std.specs.Prelude.{◌≡◌};
ghost use Rattle.heesch_text.specs.Names.{kind_text, phase_text};

use heesch_cert::{Kind, Phase};

pub fn kind_word(kind: Kind) -> &'static [u8]
    ensures { result.now ≡ kind_text kind }
{
    match kind {
        Kind::Translation => b"translation",
        Kind::HalfTurn => b"halfturn",
        Kind::Periodic => b"periodic",
    }
}

pub fn phase_word(phase: Phase) -> &'static [u8]
    ensures { result.now ≡ phase_text phase }
{
    match phase {
        Phase::Free => b"free",
        Phase::Bare => b"bare",
    }
}
