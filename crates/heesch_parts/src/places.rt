//! The places that a share has.

/// The places of a list, from 0, from the first up to below the second.
#[derive(Clone, Copy, Debug, PartialEq, Eq)]
pub struct Span {
    pub from: u32,
    pub until: u32,
}
