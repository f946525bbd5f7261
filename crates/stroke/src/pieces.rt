//! What a translator makes of strokes.

/// A piece of a segmentation: strokes that are translated together.
#[derive(Clone, Copy, Debug, PartialEq, Eq)]
pub struct Piece {
    /// How many strokes it has.
    pub len: u32,
    /// The number of the entry that they are, or `None` for a single stroke that is no entry.
    pub entry: Option<u32>,
}
