//! Dictionaries of files: Plover's JSON objects of outlines and texts, read from their bytes, and a generator of such
//! files.
//!
//! [`read_dictionary`] gives the entries of a file, the keys that it skips and the number of keys that it folds, or the
//! first cause of a refusal. What bytes come to is said of their value by `serde_json` in `specs/Outcomes.antt`. An
//! object of texts is read by `json`, straight from its tokens, and all else by `serde_json`. [`generated`] makes the
//! bytes of a dictionary from two numbers.
#![tactic(auto)]

mod dictionaries;
mod faults;
mod generator;
mod keys;
pub mod laws;
mod members;
mod order;
mod reading;
#[cfg(test)]
mod tests;
mod texts;

pub use dictionaries::{DictEntry, Dictionary};
pub use faults::DictFault;
pub use generator::{MAX_GENERATED, generated};
pub use reading::read_dictionary;
pub use texts::Text;
