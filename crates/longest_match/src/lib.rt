//! Leftmost longest match, the slow plain way.
//!
//! Plover prefers the longest outline that its dictionaries have. Here a list of strokes is cut into pieces by that
//! rule alone: [`segment`] goes over all entries for each piece, so its cost is the strokes of the list times those of
//! the entries. It says what the quick translator has to answer, and it tells of a list of words whether they show a
//! swallowed boundary ([`shows`]). A [`Conflict`] is a row of a report: an entry, an inner place and words that show
//! it.
//!
//! ```text
//! entries S, T, K, S/T/K:  S/T/K is one piece, S/T/S/T/K are the pieces S, T and S/T/K
//! ```
#![tactic(auto)]

mod conflicts;
mod pieces;
mod showing;

pub use conflicts::Conflict;
pub use pieces::{longest, segment};
pub use showing::{is_cut, joined, shows};
pub use stroke::Piece;

#[cfg(test)]
mod tests;
