//! The pairs that stay: which entries stay in a finished sequence of words although they swallow a boundary between two
//! of them, wherever in the sequence they stand, each with a shortest sequence that has it.
//!
//! A search of the closure leaves one word for each number of a state. In an open hit the marked boundary lies inside
//! the last piece, and a word may be open. Such a hit makes a pair that stays if the open word can be ended so that the
//! piece still stands: [`finish`] finds the fewest strokes that do. [`settled`] reads the words of a search once. Of
//! the open hits of each pair it chooses the one with the least sum of its distance and of the strokes that finish it,
//! and of these the one of least number; the walk to it and the word that is ended are the pair's example.
//!
//! For each node of the trie it is found once how many strokes away the nearest word is. So a finish is looked for only
//! where a word can be, and mostly the first stroke that is tried leads to it: the time follows the numbers of states
//! and the strokes of the finishes. A node takes one byte, a pair eight.
#![tactic(auto)]

mod ending;
mod finishes;
mod near;
#[cfg(test)]
mod plain;
mod rows;
mod sums;
#[cfg(test)]
mod tests;
mod ways;

pub use ending::finish;
pub use finishes::Finish;
pub use rows::settled;
