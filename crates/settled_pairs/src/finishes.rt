//! How an open hit finishes.

/// The fewest strokes that end the open word of an open hit so that its last piece still stands.
#[derive(Clone, Copy, Debug, PartialEq, Eq)]
pub struct Finish {
    /// How many strokes they are.
    pub strokes: u32,
    /// The number of the word that is ended, None where no word is open. Of several it is the first one.
    pub word: Option<u32>,
}
