//! An entry of a watch list.
ghost use Rattle.std.specs.Prelude.{◌≡◌, ◌<◌, ◌^◌};
ghost use Rattle.heesch_trail.specs.Watches.{index_of, is_binary};

use heesch_cnf::PackedLit;

const BINARY: u32 = 1 << 31;

/// A clause in the list of a literal that may watch it: its index, with the top bit set where it has just two
/// literals, and another literal of it.
#[derive(Debug, Clone, Copy)]
pub struct Entry {
    pub mark: u32,
    pub blocker: PackedLit,
}

impl Entry {
    /// The clause of this index, which has this other literal.
    pub fn new(index: u32, blocker: PackedLit, binary: bool) -> Entry
        requires { index < 2 ^ 31 }
        ensures index { index_of result ≡ index }
        ensures blocker { result.blocker ≡ blocker }
        ensures binary { is_binary result ≡ binary }
    {
        Entry {
            mark: if binary { index + BINARY } else { index },
            blocker,
        }
    }

    /// The clause's index, from 0.
    pub fn index(&self) -> u32
        ensures { result ≡ index_of self.now }
    {
        if self.mark >= BINARY {
            self.mark - BINARY
        } else {
            self.mark
        }
    }

    /// Whether the clause has just two literals: the one whose list this is, and the blocker.
    pub fn is_binary(&self) -> bool
        ensures { result ≡ is_binary self.now }
    {
        self.mark >= BINARY
    }
}
