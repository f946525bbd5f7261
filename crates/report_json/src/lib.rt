//! The report of an audit as JSON text, which other programs can read.
//!
//! `serde_json` writes the text and reads it. What is written is read as the same report, and no other value is read as
//! a report than that of one.
#![tactic(auto)]

mod faults;
mod items;
pub mod laws;
mod lines;
mod making;
mod parts;
mod reading;
mod reports;
mod stream;
mod taking;
mod writing;

pub use faults::JsonFault;
pub use lines::write_rows;
pub use making::json_of;
pub use reading::read_json;
pub use reports::{JsonReport, JsonRow};
pub use writing::write_json;

#[cfg(test)]
mod tests;
