//! A list that only proofs read.
//!
//! Some types are seen as more than their fields hold: a region of blocks as its live blocks, a tree of prefixes as the
//! list that it was made of. Such a type keeps a `History`, which takes no bytes and does nothing when the program
//! runs, and its invariant ties what the history says to what the fields hold.
#![tactic(auto)]

mod history;

pub use history::History;
