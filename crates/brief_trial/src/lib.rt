//! Whether new outlines would swallow a boundary between words, before they enter a dictionary.
//!
//! A writer thinks of short outlines, briefs, and wants to know of each what it would do beside the entries that there
//! are. A brief is tried on a stack of its own: that of the dictionaries, with the brief as an entry and as a word. Its
//! trial tells the conflicts of the brief's own entry there, each with a shortest sequence of words that shows it.
#![tactic(auto)]

mod briefs;
mod faults;
pub mod laws;
mod one;
mod searching;
mod stacks;
#[cfg(test)]
mod tests;
mod trial;
mod writing;

pub use briefs::{MAX_BRIEFS, MAX_TRIERS, try_briefs};
pub use faults::TrialFault;
pub use trial::Trial;
pub use writing::write_trials;
