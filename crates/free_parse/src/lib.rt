//! Whether the strokes of words can be read in one way only, and a shortest list of strokes that can be read in two
//! ways.
//!
//! A writer who presses the words of a dictionary one after another, without a pause, means one list of words. If some
//! other list of words has the same strokes, no translator can tell which one was meant. Sardinas and Patterson (1953)
//! decide whether there are such two readings of a finite code.
//!
//! Here that is a search. A fork says where two readings of the same strokes are: still the same, or different with the
//! open words p and q, or at the end of a word both. [`FreeGraph`] is the graph of the forks by numbers, to be searched
//! by `round_core`, and [`readings`] makes the two shortest readings of the settled words that the search leaves, or
//! tells that there are none: `readings(alloc, &graph, search_plain(alloc, &graph)?.words())`. [`write_parse`] puts the
//! text of what was found.
//!
//! A graph takes 4 bytes a node and 4 bytes a number. A number's targets are found by one look-up for each child of its
//! longer open word.
#![tactic(auto)]

mod ending;
mod fork;
mod graph;
mod halves;
mod lines;
mod moves;
mod parts;
mod targets;
#[cfg(test)]
mod tests;
mod two;
mod waiting;
mod walk;

pub use graph::FreeGraph;
pub use lines::write_parse;
pub use moves::ForkMoves;
pub use two::Readings;
pub use walk::readings;
