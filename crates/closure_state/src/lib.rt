//! The closure, state by state.
//!
//! What a translator and a writer have in mind at one moment is a state: the window of what was written, the strokes of
//! the word that is open, and a boundary between two words that was marked. From a state each stroke of a word leads to
//! at most three others, and a hit is a state in which the marked boundary lies inside the last piece. Whether words
//! can run together is thus a question of which states are reached from a fresh start.
//!
//! A state is three numbers ([`State`]), two of them nodes of the trie. Its targets are listed by a cursor that takes
//! no memory ([`Moves`]), all of them or only the kept ones, which suffice to find what is reached. The kept ones are
//! found directly: after a word they are the children of the window and of its shorter ends, whose sorted rows are
//! merged.
//!
//! A [`WordSet`] takes 2 bytes a node.
#![tactic(auto)]

mod chain;
mod hits;
mod moves;
#[cfg(test)]
mod plain;
mod row;
mod rows;
mod state;
mod step;
mod strokes;
#[cfg(test)]
mod tests;
mod waiting;
mod word_set;

pub use hits::hit;
pub use moves::Moves;
pub use state::{Hit, State, is_state};
pub use waiting::Waiting;
pub use word_set::WordSet;
