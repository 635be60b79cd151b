//! What a look at a clause finds.
use crate::pair::Pair;
use heesch_cnf::PackedLit;

/// Which literals of a clause aren't false; where there are two, also whether the clause has no others.
#[derive(Debug, Clone, Copy)]
pub enum Reading {
    Nothing,
    One(PackedLit),
    Two(Pair, bool),
}
