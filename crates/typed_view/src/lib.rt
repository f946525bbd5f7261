//! What becomes of the boundaries of a typed sequence: each is kept, or a piece of the translation crosses it.
//!
//! A typed sequence is a list of parts that are written one after another. Its strokes, joined, are translated as if
//! nothing had stood between them, and a boundary between two parts is crossed where it lies inside a piece.
#![tactic(auto)]

mod boundaries;
mod lines;

pub use boundaries::{Cover, boundary_covers, covers};
pub use lines::write_covers;

#[cfg(test)]
mod tests;
