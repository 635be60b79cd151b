//! Which corona formula of a shape is asked for.

use heesch_cnf::Version;

/// A corona formula that is asked for: its level, the most literals that it may have, and its version; and the most
/// bytes that are read of an input.
#[derive(Clone, Copy)]
pub struct Asked {
    pub level: u32,
    pub size: u32,
    pub version: Version,
    pub most: u64,
}
