//! The limits under which a shape is classified.
ghost use Rattle.std.specs.Prelude.{◌↔◌, IsTrue};
ghost use Rattle.heesch_cert.specs.Limits.{AreLimits};

use heesch_cnf::Version;

/// The limits of a classification.
#[derive(Clone, Copy, Debug, PartialEq, Eq)]
pub struct Limits {
    /// How many steps a search may take, 1 to 1,000,000.
    pub turns: u32,
    /// How many coronas are sought, 1 to 6.
    pub levels: u32,
    /// How many tiles the domain of a periodic cover may have, 1 to 12.
    pub domain: u32,
    /// How many literals a corona formula may have, 1 to 60,000,000.
    pub size: u32,
    /// Which corona formula the searches are over.
    pub version: Version,
}

impl Limits {
    /// Whether each limit is in its range.
    pub fn valid(&self) -> bool
        ensures { IsTrue result ↔ AreLimits self.now }
    {
        1 <= self.turns
            && self.turns <= 1_000_000
            && 1 <= self.levels
            && self.levels <= 6
            && 1 <= self.domain
            && self.domain <= 12
            && 1 <= self.size
            && self.size <= 60_000_000
    }
}
