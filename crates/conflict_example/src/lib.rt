//! The conflicts of a stack, each with a shortest sequence of words that shows it, from the settled words of a search.
//!
//! A search of the closure leaves one word for each number of a state: how far the state is from the start, and which
//! number comes before it. [`conflicts`] reads them once. Of the hits of each pair of an entry and an inner place it
//! chooses the nearest, and of these the one of least number; the walk to it, back by the words, spells the words of
//! the pair's example. [`conflicts_of`] does the same for one entry alone.
//!
//! So the time follows the numbers, the pairs and the strokes of the examples, of which each costs one look-up among
//! the children of a node. A number of a state takes no memory, and a pair eight bytes.
#![tactic(auto)]

mod examples;
mod hits;
mod rows;
#[cfg(test)]
mod tests;

pub use examples::{Scratch, example};
pub use rows::{conflicts, conflicts_of};
