//! The pair of literals that watches a clause.
ghost use Rattle.heesch_trail.specs.Watches.{IsBeside};

use heesch_cnf::PackedLit;

/// Two literals of a clause, which watch it.
#[derive(Debug, Clone, Copy)]
pub struct Pair {
    pub one: PackedLit,
    pub other: PackedLit,
}

impl Pair {
    /// The literal beside this one, where it is one of the two.
    pub fn beside(self, lit: PackedLit) -> Option<PackedLit>
        ensures { IsBeside self lit result }
    {
        if self.one == lit {
            Some(self.other)
        } else if self.other == lit {
            Some(self.one)
        } else {
            None
        }
    }
}
