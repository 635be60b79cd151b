//! What tests are made of, where the tests of several crates share it: cells, shapes, literals, limits, words
//! and worked texts.
#![tactic(auto)]

mod equality;
mod literals;
mod shapes;
mod texts;

pub use equality::same;
pub use heesch_cert::Member;
pub use heesch_grid::{Cell, Iso, cells};
pub use literals::{lit, lits};
pub use shapes::{are_near, canonical_of, shape_of};
pub use texts::{BRIEF_TETROMINOES, HOLED, LIMITS, TRIANGLE, tetrominoes, words_of};

/// The isometries of these turns and translations.
#[macro_export]
macro_rules! isos {
    ($($turn:literal, $da:literal, $db:literal);*) => {
        [$($crate::Iso { turn: $turn, da: $da, db: $db }),*]
    };
}

/// The members of these classes, by the symmetries of these turns and translations.
#[macro_export]
macro_rules! members {
    ($($class:literal, $turn:literal, $da:literal, $db:literal);*) => {
        [$($crate::Member {
            class: $class,
            by: $crate::Iso { turn: $turn, da: $da, db: $db },
        }),*]
    };
}
