//! Numbers drawn from a seed.
ghost use Rattle.std.specs.Prelude.{◌≡◌};
ghost use Rattle.heesch_grow.specs.Generator.{next_state, drawn};

use std::marker::Model;

const MULTIPLIER: u64 = 6_364_136_223_846_793_005;

const INCREMENT: u64 = 1_442_695_040_888_963_407;

/// A linear congruential generator of 64 bits. Contracts see its state.
#[derive(Debug, Drop)]
pub struct Draws {
    state: u64,
}

impl Model for Draws {
    ghost use Rattle.std.specs.Prelude.{ℕ};

    ghost Value = { ℕ };

    ghost view = { λ d. d.state };
}

impl Draws {
    /// The generator whose state is the seed.
    pub fn new(seed: u64) -> Draws
        ensures { result ≡ seed }
    {
        Draws { state: seed }
    }

    /// Replaces the state x by x * 6364136223846793005 + 1442695040888963407 modulo 2^64, and
    /// answers the new state divided by 2^33, rounded down.
    pub fn next(&mut self) -> u32
        ensures state { self.new ≡ next_state self.old }
        ensures answer { result ≡ drawn self.new }
    {
        self.state = self.state.wrapping_mul(MULTIPLIER).wrapping_add(INCREMENT);
        (self.state >> 33) as u32
    }
}
