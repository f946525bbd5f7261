//! The targets of a number, one after another.

use crate::waiting::Waiting;

/// The targets of a number that are left. No memory is taken.
#[derive(Drop)]
pub struct ForkMoves<'a> {
    /// The children of the longer open word that are left.
    pub(crate) row: &'a [(u32, u32)],
    /// The node of the shorter open word, if there is one.
    pub(crate) shorter: Option<u32>,
    /// The targets by the stroke to the last child.
    pub(crate) waiting: Waiting,
}
