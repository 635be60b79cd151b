//! Which literals of a clause were assigned last.

use crate::trail::Trail;
use heesch_cnf::Lit;

/// A literal of a clause by its place, with the level at which it was assigned; an open one counts as of the greatest.
#[derive(Debug, Clone, Copy)]
pub(crate) struct Placed {
    pub place: usize,
    pub level: u32,
}

/// The two literals of a clause that were assigned last.
#[derive(Debug, Clone, Copy)]
pub(crate) struct Latest {
    pub first: Option<Placed>,
    pub second: Option<Placed>,
}

/// The level of literals that are open.
pub(crate) const OPEN: u32 = u32::MAX;

fn is_later(placed: Placed, than: Option<Placed>) -> bool {
    match than {
        None => true,
        Some(than) => than.level < placed.level,
    }
}

impl Latest {
    /// Those of this clause.
    pub fn of(trail: &Trail, clause: &[Lit]) -> Latest {
        let mut first = None;
        let mut second = None;
        for place in 0..clause.len() {
            let variable = clause[place].var;
            let level = if trail.value(variable).is_open() {
                OPEN
            } else {
                trail.level_of(variable)
            };
            let placed = Placed { place, level };
            if is_later(placed, first) {
                second = first;
                first = Some(placed);
            } else if is_later(placed, second) {
                second = Some(placed);
            }
        }
        Latest { first, second }
    }

    /// The level of the second one, or 0.
    pub fn second_level(self) -> u32 {
        match self.second {
            None => 0,
            Some(placed) => placed.level,
        }
    }
}
