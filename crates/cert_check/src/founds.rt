//! The pairs of the listed hits.

/// An entry and an inner place of it, and the least distance of the listed hits of this pair.
#[derive(Clone, Copy, Debug, PartialEq, Eq)]
pub(crate) struct Found {
    pub(crate) entry: u32,
    pub(crate) place: u8,
    pub(crate) distance: u32,
}
