//! The live translator: strokes come one by one, and each answers what it changes.
//!
//! While a stenographer writes, nobody knows the strokes to come. Plover translates each stroke at once and takes
//! pieces back where a later stroke makes a longer entry of them. [`Translator`] does that: it keeps only the pieces
//! that later strokes can still change, so a push costs the same however much was written, and it takes no memory after
//! it was made. What it answers, stroke by stroke, comes to leftmost longest match over the whole list ([`translate`]).
//! So a trie also tells quickly whether words, written one after another, swallow a boundary ([`shows`]).
#![tactic(auto)]

mod ends;
mod showing;
#[cfg(test)]
mod tests;
mod translator;
mod whole;

pub use showing::shows;
pub use translator::{Merge, Translator};
pub use whole::translate;
