//! Strokes of the English Stenotype as texts, read leniently and written canonically.
//!
//! A dictionary's keys and the words of a command are texts such as `STS/T-`. [`read_stroke`], [`read_strokes`] and
//! [`read_outline`] say which strokes they spell, and [`write_stroke`] and [`write_outline`] write the one text that
//! each stroke has. Reading takes one character at a time, in time linear in the text; a stroke takes no memory.
//!
//! What a text spells is stated on the whole list of its characters (`specs/Spelling.antt`): each character but the
//! hyphen presses the first key after those before it that is written with it. So `STS` presses S, T and the S of the
//! right side, and `UE` spells nothing. The same as a function is `specs/Reading.antt`, and the laws in `laws` say that
//! the two are one, and that every stroke's canonical text (`specs/Canonical.antt`) is a spelling of it.
#![tactic(auto)]

mod faults;
mod keys;
pub mod laws;
mod pressed;
mod reading;
#[cfg(test)]
mod tests;
mod writing;

pub use faults::{OutlineFault, StrokesFault};
pub use reading::{is_readable, read_outline, read_stroke, read_strokes};
pub use writing::{write_outline, write_stroke};
