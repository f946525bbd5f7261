//! Up to sixteen dictionaries as one, by priority: what a translator looks outlines up in.
//!
//! [`Stack::new`] takes the dictionaries of files, the first of which has the highest priority, and for each whether
//! its outlines are words or only translate. The stack has each outline that some dictionary has, with the translation
//! of the first dictionary that has it. An entry is named by its place in outline order and found by binary search.
//! Whoever asks for [`StrokeNumbers`] has each stroke named by its place in order of first appearance.
//!
//! The entries of all dictionaries are laid end to end (`candidates`), sorted by outline, which merges the rising runs
//! that the dictionaries are, and freed of those that an earlier dictionary hides (`columns`). Outlines and
//! translations are moved, never copied.
#![tactic(auto)]

mod candidates;
mod columns;
mod faults;
mod finding;
pub mod laws;
mod stacks;
mod stroke_numbers;

pub use faults::StackFault;
pub use finding::find_outline;
pub use stacks::Stack;
pub use stroke_numbers::StrokeNumbers;

#[cfg(test)]
mod tests;
